//! The forms of messages, as words: a byte order alone, `be` or `le`, is of GIOP 1.2, and behind `1.0` or `1.1` it is
//! of that version.
ghost use Rattle.std.specs.Prelude.{◌<◌, IfOk};

use giop_messages::Form;
use row_words::{RowFault, order_of, order_word};
use std::alloc::AllocError;

/// The form of a row.
pub fn form_of(word: &str) -> Result<Form, RowFault>
    ensures { IfOk result (λ form. form.minor < 3) }
{
    let (minor, order) = match (word.strip_prefix("1.0"), word.strip_prefix("1.1")) {
        (Some(order), _) => (0, order),
        (_, Some(order)) => (1, order),
        _ => (2, word),
    };
    Ok(Form {
        minor,
        order: order_of(order)?,
    })
}

/// Writes the word of a form.
pub fn put_form(form: Form, out: &mut String) -> Result<(), AllocError> {
    if form.minor != 2 {
        write!(out, "1.{}", form.minor)?;
    }
    out.push_str(order_word(form.order))
}
