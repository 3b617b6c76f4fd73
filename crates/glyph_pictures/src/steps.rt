//! What the run of a line made of its list, step by step: a list of which the page shows one step
//! at a time.
use crate::drawn::MOST_BYTES;
use crate::html::push_html;
use crate::sheet::Sheet;
use std::alloc::{AllocError, Global};

/// What stands before the steps of a line.
pub(crate) const BEGIN: &str =
    r#"<div class="steps" tabindex="0"><p><button>←</button> <button>→</button> <b></b></p><ol>
"#;

/// What stands after them.
pub(crate) const END: &str = "</ol></div>\n";

/// What stands for the steps that are left out.
const LEFT_OUT: &str = "<li>The steps that follow are left out.</li>\n";

/// A step as an entry of the list.
fn entry(alloc: Global, step: &str) -> Result<String, AllocError> {
    let mut out = String::new(alloc);
    out.push_str("<li>")?;
    push_html(&mut out, step)?;
    out.push_str("</li>\n")?;
    Ok(out)
}

/// The steps of a line, each a line of this text, as many as [`MOST_BYTES`] hold.
pub(crate) fn entries(alloc: Global, steps: &str) -> Result<String, AllocError> {
    let mut sheet = Sheet::new(alloc, MOST_BYTES);
    for step in steps.lines() {
        if sheet.is_full() {
            break;
        }
        let entry = entry(alloc, step)?;
        sheet.put(entry.as_str())?;
    }
    let mut out = String::from_str(alloc, sheet.text())?;
    if sheet.is_full() {
        out.push_str(LEFT_OUT)?;
    }
    Ok(out)
}
