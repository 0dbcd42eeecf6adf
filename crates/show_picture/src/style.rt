// How the elements of a picture look: dark on white, and told apart without colours.
use show_layout::scale;
use show_marks::bars::Sets;
use show_marks::key;
use show_words::{put, svg};
use std::alloc::AllocError;

fn texts(out: &mut Vec<u8>) -> Result<(), AllocError> {
    put::text(out, b"<style>\n")?;
    put::text(
        out,
        b"text{font-family:sans-serif;font-size:120px;fill:#111}\n",
    )?;
    put::text(out, b".head{font-size:140px;font-weight:bold}\n")?;
    put::text(out, b".lane{text-anchor:end}\n")?;
    put::text(out, b".at{font-size:110px;text-anchor:middle}\n")?;
    put::text(
        out,
        b".inside,.below,.flagged,.last{text-anchor:middle;stroke-linejoin:round;paint-order:stroke}\n",
    )?;
    put::text(
        out,
        b".inside{font-weight:bold;stroke:#dce8f3;stroke-width:28;pointer-events:none}\n",
    )?;
    put::text(out, b".small{font-size:95px;font-weight:normal}\n")?;
    put::text(
        out,
        b".below{font-size:100px;stroke:#fff;stroke-width:24}\n",
    )?;
    put::text(
        out,
        b".flagged{font-size:100px;font-weight:bold;fill:#900;stroke:#fff;stroke-width:24}\n",
    )?;
    put::text(out, b".last{font-size:130px;font-weight:bold}\n")
}

fn lines(out: &mut Vec<u8>) -> Result<(), AllocError> {
    put::text(out, b".grid{stroke:#ddd;stroke-width:8}\n")?;
    put::text(out, b".axis{stroke:#111;stroke-width:10}\n")?;
    put::text(out, b".type{stroke:#888;stroke-width:8}\n")?;
    put::text(out, b".unit{stroke:#ccc;stroke-width:6}\n")?;
    put::text(out, b".lead{stroke:#777;stroke-width:5}\n")?;
    put::text(out, b".due{stroke:#900;stroke-width:14}\n")?;
    put::text(
        out,
        b".flag{fill:#900;stroke:#900;stroke-width:10;stroke-linejoin:round}\n",
    )?;
    put::text(out, b".met{fill:#fff}\n")?;
    put::text(out, b".response{stroke:#111;stroke-width:20}\n")
}

// Arrows are thin; under the pointer those to the task are drawn again, strong.
fn bars(out: &mut Vec<u8>) -> Result<(), AllocError> {
    put::text(out, b".bar{fill:#dce8f3;stroke:#24405e;stroke-width:9}\n")?;
    put::text(out, b".late{fill:url(#hatch);stroke:#900;stroke-width:9}\n")?;
    put::text(
        out,
        b".arrows{fill:none;stroke:#7d8ea0;stroke-width:7;marker-end:url(#tip)}\n",
    )?;
    put::text(
        out,
        b".many{stroke-width:3;stroke-opacity:.5;marker-end:none}\n",
    )?;
    put::text(
        out,
        b".again{fill:none;stroke:#c40;stroke-width:22;marker-end:url(#tip)}\n",
    )?;
    put::text(out, b".over{stroke:#900;stroke-width:20}\n")?;
    put::text(
        out,
        b".again,.over{visibility:hidden;pointer-events:none}\n",
    )?;
    put::text(
        out,
        b".task:hover .again,.task:hover .over{visibility:visible}\n",
    )?;
    put::text(out, b".task:hover .bar{stroke:#c40;stroke-width:25}\n")
}

// Of a picture with not-before instants.
fn releases(out: &mut Vec<u8>) -> Result<(), AllocError> {
    put::text(out, b".open{stroke:#064;stroke-width:10}\n")?;
    put::text(out, b".release{fill:none;stroke:#064;stroke-width:16}\n")?;
    put::text(
        out,
        b".released{font-size:100px;font-weight:bold;fill:#064;stroke:#fff;stroke-width:24;",
    )?;
    put::text(
        out,
        b"text-anchor:middle;stroke-linejoin:round;paint-order:stroke}\n",
    )
}

// A print fills a sheet of paper, which lies on its side for a picture that is wide.
fn paper(out: &mut Vec<u8>, bottom: u64) -> Result<(), AllocError> {
    put::text(
        out,
        b"@media print{svg{width:100%;height:auto;max-height:100%}}\n",
    )?;
    if bottom < 9000 {
        put::text(out, b"@page{size:landscape}\n")?;
    }
    put::text(out, b"</style>\n")
}

fn definitions(out: &mut Vec<u8>) -> Result<(), AllocError> {
    put::text(out, b"<defs>\n")?;
    put::text(
        out,
        b"<pattern id=\"hatch\" width=\"50\" height=\"50\" patternUnits=\"userSpaceOnUse\" patternTransform=\"rotate(45)\">",
    )?;
    put::text(
        out,
        b"<rect width=\"50\" height=\"50\" fill=\"#fff\"/><rect width=\"22\" height=\"50\" fill=\"#b22\"/></pattern>\n",
    )?;
    put::text(
        out,
        b"<marker id=\"tip\" viewBox=\"0 0 10 10\" refX=\"10\" refY=\"5\" markerWidth=\"65\" markerHeight=\"65\"",
    )?;
    put::text(
        out,
        b" markerUnits=\"userSpaceOnUse\" orient=\"auto\"><path d=\"M0 1L10 5L0 9z\" fill=\"#56677a\" stroke=\"none\"/></marker>\n",
    )?;
    put::text(out, b"</defs>\n")
}

fn size(out: &mut Vec<u8>, bottom: u64) -> Result<(), AllocError> {
    svg::attribute(out, b"width", scale::SHEET / 10)?;
    svg::attribute(out, b"height", bottom / 10)?;
    put::words(out, b" viewBox=\"0 0 ", scale::SHEET, b" ")?;
    put::words(out, b"", bottom, b"\">\n")
}

// The beginning of the picture, down to its white ground and its heading.
pub fn begin(out: &mut Vec<u8>, bottom: u64, s: &Sets, response: u64) -> Result<(), AllocError> {
    put::text(out, b"<svg xmlns=\"http://www.w3.org/2000/svg\"")?;
    size(out, bottom.saturating_add(key::height(s)))?;
    put::words(
        out,
        b"<title>Timetable of worst times, R = ",
        response,
        b"</title>\n",
    )?;
    texts(out)?;
    lines(out)?;
    bars(out)?;
    if s.released != 0 {
        releases(out)?;
    }
    paper(out, bottom)?;
    definitions(out)?;
    put::text(
        out,
        b"<rect width=\"100%\" height=\"100%\" fill=\"#fff\"/>\n",
    )?;
    svg::words(out, b"head", scale::LEFT, 200, b"Timetable of worst times")
}

pub fn end(out: &mut Vec<u8>) -> Result<(), AllocError> {
    put::text(out, b"</svg>\n")
}
