// The form of a line: a letter, then decimal fields, each after one tab; and the line that begins at a place of a text.
#![tactic(auto)]

ghost use Rattle.std.specs.Prelude.{◌≡◌, ◌==◌, ◌+◌, ◌*◌, ◌^◌, ◌<◌, ◌≤◌, position, take};
ghost use Rattle.text_form.specs.Form.{line_of, most_digits, newline, split, tab};
ghost use Rattle.text_form.specs.Steps.{Digits, field_of, fields_of, first_part, form_from, line_at};

const NEWLINE: u8 = b'\n';

const TAB: u8 = b'\t';

pub const MOST_DIGITS: usize = 7;

const MOST_FIELDS: usize = 4;

// A line of one of the six forms: U, type, count; T, task, type, best, worst; A, from, to; D, task, instant; N, task, instant;
// C, task, type.
#[derive(Clone, Copy, Debug, PartialEq, Eq)]
pub enum Line {
    Units(u32, u32),
    Times(u32, u32, u32, u32),
    Arrow(u32, u32),
    Deadline(u32, u32),
    Release(u32, u32),
    Choice(u32, u32),
}

// A field's value, and how many digits it has.
#[derive(Drop)]
struct Field {
    value: u32,
    digits: usize,
}

// How many fields a line has, and their values. They lie in an array, since the library has no heap.
#[derive(Drop)]
struct Fields {
    count: usize,
    values: [u32; MOST_FIELDS],
}

// The value of the digits so far and one more. Ten times a value is eight times and twice it, by shifts: a controller may have no
// multiplier.
fn with_digit(value: u32, digit: u32) -> u32
    requires { (value < 10 ^ most_digits) × (digit ≤ 9) }
    ensures { result ≡ value * 10 + digit }
{
    (value << 3) + (value << 1) + digit
}

// The first n bytes as a field. They are digits that make this value; a field has one at least, and no leading zero.
fn field_of(s: &[u8], n: usize, value: u32) -> Option<Field>
    requires { Digits s.now n value }
    ensures { result ≡ field_of (take n s.now) }
{
    if n == 0 {
        return None;
    }
    if (1 < n) & (s[0] == b'0') {
        return None;
    }
    Some(Field { value, digits: n })
}

// The field at the front of what follows a tab, up to the next tab or the end.
fn read_field(s: &[u8]) -> Option<Field>
    ensures { result ≡ field_of (first_part tab s.now) }
{
    let mut value = 0;
    for (n, &b) in s.iter().enumerate() {
        if b == TAB {
            return field_of(s, n, value);
        }
        if (n == MOST_DIGITS) | !b.is_ascii_digit() {
            return None;
        }
        value = with_digit(value, u32::from(b - b'0'));
    }
    field_of(s, s.len(), value)
}

// The fields of what follows the first tab. The rest of the line after each tab is handed on to the field reader.
fn read_fields(s: &[u8]) -> Option<Fields>
    ensures { result ≡ fields_of (split tab s.now) }
{
    let mut values = [0; MOST_FIELDS];
    let mut rest = s;
    for i in 0..MOST_FIELDS {
        let field = read_field(rest)?;
        values[i] = field.value;
        if rest.len() <= field.digits {
            return Some(Fields {
                count: i + 1,
                values,
            });
        }
        rest = &rest[field.digits + 1..];
    }
    None
}

// The line of a letter and fields: a form has one letter and so many fields.
#[tactic(auto, unfolding(crate::specs::Form::form_of))]
fn form_of(letter: u8, f: Fields) -> Option<Line>
    ensures { result ≡ form_from letter f }
{
    let v = f.values;
    match (letter, f.count) {
        (b'U', 2) => Some(Line::Units(v[0], v[1])),
        (b'T', 4) => Some(Line::Times(v[0], v[1], v[2], v[3])),
        (b'A', 2) => Some(Line::Arrow(v[0], v[1])),
        (b'D', 2) => Some(Line::Deadline(v[0], v[1])),
        (b'N', 2) => Some(Line::Release(v[0], v[1])),
        (b'C', 2) => Some(Line::Choice(v[0], v[1])),
        _ => None,
    }
}

// A line, without its newline.
pub fn read_line(s: &[u8]) -> Option<Line>
    ensures { result ≡ line_of s.now }
{
    let [letter, TAB, rest @ ..] = s else {
        return None;
    };
    form_of(*letter, read_fields(rest)?)
}

// Where the first newline stands, if there is one.
fn newline_in(s: &[u8]) -> Option<usize>
    ensures { result ≡ position (λ b. b == newline) s.now }
{
    s.iter().position(|&b| b == NEWLINE)
}

// The line that begins at `at`, and where its newline stands. A line that no newline ends has none of the forms.
pub fn line_at(text: &[u8], at: usize) -> Option<(Line, usize)>
    ensures { result ≡ line_at text.now at }
{
    let rest = text.get(at..)?;
    let n = newline_in(rest)?;
    let line = read_line(&rest[..n])?;
    Some((line, at + n))
}
