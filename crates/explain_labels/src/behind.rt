//! What an answer prints behind the path of a fault.

/// A label, and a line and a column as `LINE:COLUMN`; each empty or none where the answer has none.
#[derive(Clone, Copy)]
pub(crate) struct Behind<'a> {
    pub label: Option<&'a str>,
    pub mark: &'a str,
}

fn is_number(text: &str) -> bool {
    !text.is_empty() && text.as_bytes().iter().all(|c| c.is_ascii_digit())
}

// Whether a text is a line and a column.
fn is_mark(text: &str) -> bool {
    match text.split_once(':') {
        Some((line, column)) => is_number(line) && is_number(column),
        None => false,
    }
}

impl<'a> Behind<'a> {
    /// What is printed, read.
    pub fn of(printed: &'a str) -> Behind<'a> {
        if printed.is_empty() {
            return Behind {
                label: None,
                mark: "",
            };
        }
        if is_mark(printed) {
            return Behind {
                label: None,
                mark: printed,
            };
        }
        match printed.rsplit_once(' ') {
            Some((label, mark)) if is_mark(mark) => Behind {
                label: Some(label),
                mark,
            },
            _ => Behind {
                label: Some(printed),
                mark: "",
            },
        }
    }
}
