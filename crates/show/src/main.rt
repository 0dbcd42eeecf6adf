// What people are shown of a plan text on standard input, by the word that follows the program's name: `explain`, why the text is
// refused; `unproposed`, why no order is proposed for it; `why`, what held each task until its start; `picture`, the timetable of worst
// times as a chart.
#![tactic(auto)]

use plan_text::Answer;
use show_picture::picture;
use show_reasons::why;
use show_refusals::explain;
use std::alloc::AllocError;
use std::io;
use std::io::{Read, Write};
use std::rt::Env;

// The plan and the constraint of a text that is read, if the check takes them.
fn accepted(text: &[u8]) -> Option<Answer> {
    let a = plan_text::read(text);
    if a.number != 0 {
        return None;
    }
    plan_check::checked(&a.plan, &a.constraint).ok()?;
    Some(a)
}

// Nothing at any other word, and no picture or table of a plan that is not accepted.
fn show(out: &mut Vec<u8>, word: &[u8], text: &[u8]) -> Result<(), AllocError> {
    match word {
        b"explain" => explain::show(out, text),
        b"unproposed" => explain::show_unproposed(out, text),
        b"why" => match accepted(text) {
            Some(a) => why::show(out, a.plan, a.constraint),
            None => Ok(()),
        },
        b"picture" => match accepted(text) {
            Some(a) => picture::show(out, a.plan, a.constraint),
            None => Ok(()),
        },
        _ => Ok(()),
    }
}

fn main(rt: HostRuntime) -> io::Result<()> {
    let mut text = Vec::new(rt.alloc());
    rt.stdin().take(65536).read_to_end(&mut text)?;
    let mut word = [0; 4096];
    let k = rt.arg(1, &mut word).unwrap_or(0);
    let mut out = Vec::new(rt.alloc());
    show(&mut out, &word[..k], &text)?;
    rt.stdout().write_all(&out)
}
