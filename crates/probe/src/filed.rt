// What is filed with an event, in frames and in the text: the one place of the probe that takes it apart.
use crate::page::Page;
use filing::Filed;

// What is filed, by its number.
pub(crate) fn of(second: u32) -> Filed {
    Filed { second }
}

// Puts what is filed, behind a separator.
pub(crate) fn put(page: &mut Page, separator: char, filed: Filed) {
    write!(page, "{separator}{}", filed.second);
}
