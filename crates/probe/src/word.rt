// The words of tables, and how a block spells one.
use std::fmt::Display;
use text::numbers::number;

pub(crate) trait Word: Copy + Display + Drop {
    fn spelled(text: &[u8]) -> Option<Self>;
}

impl Word for u64 {
    // Digits alone, also with zeros in front.
    fn spelled(text: &[u8]) -> Option<u64> {
        if text.is_empty() {
            return None;
        }
        let mut v: u64 = 0;
        for b in text {
            if !b.is_ascii_digit() {
                return None;
            }
            v = v.checked_mul(10)?.checked_add(u64::from(*b - b'0'))?;
        }
        Some(v)
    }
}

impl Word for i64 {
    fn spelled(text: &[u8]) -> Option<i64> {
        number(text)
    }
}
