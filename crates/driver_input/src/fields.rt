// The decimal fields of a line.
pub const MOST: usize = 80;

const MOST_DIGITS: usize = 20;

// The values of a line's fields: the first `count` of them. An array has room for every line, so no memory can run out here.
#[derive(Clone, Copy)]
pub struct Fields {
    values: [u64; MOST],
    count: usize,
}

impl Fields {
    fn none() -> Fields {
        Fields {
            values: [0; MOST],
            count: 0,
        }
    }

    pub fn as_slice(&self) -> &[u64] {
        self.values.get(..self.count).unwrap_or(&[])
    }

    // One more value, where there is room for it.
    fn push(&mut self, value: u64) -> Option<()> {
        *self.values.get_mut(self.count)? = value;
        self.count = self.count.saturating_add(1);
        Some(())
    }
}

// The value that a digit makes of the one that the digits before it have. A field is bytes and no text, so it isn't parsed as one.
fn with_digit(value: u64, b: u8) -> Option<u64> {
    if !b.is_ascii_digit() {
        return None;
    }
    value.checked_mul(10)?.checked_add(u64::from(b - b'0'))
}

// The value of a field of 1 to 20 digits.
fn value_of(field: &[u8]) -> Option<u64> {
    if field.is_empty() | (MOST_DIGITS < field.len()) {
        return None;
    }
    let mut value = 0;
    for &b in field {
        value = with_digit(value, b)?;
    }
    Some(value)
}

// Fields with tabs between them.
pub fn of(text: &[u8]) -> Option<Fields> {
    let mut fields = Fields::none();
    for field in text.split(|&b| b == b'\t') {
        fields.push(value_of(field)?)?;
    }
    Some(fields)
}

// No field, or fields with a tab before each.
pub fn after_tabs(text: &[u8]) -> Option<Fields> {
    match text {
        [] => Some(Fields::none()),
        [b'\t', fields @ ..] => of(fields),
        _ => None,
    }
}

// The values as times, if each has 32 bits.
pub fn narrowed<'a>(values: &[u64], times: &'a mut [u32; MOST]) -> Option<&'a [u32]> {
    for (time, &value) in times.iter_mut().zip(values) {
        *time = u32::try_from(value).ok()?;
    }
    times.get(..values.len())
}
