//! Carets of small lines, by hand.
use crate::letters::{LetterFont, Letters};
use line_carets::{line_carets, run_carets};
use shape_carets::{caret_of_offset, offset_of_x};
use std::process::Abort;
use std::test::Fail;
use text_lines::{ParagraphOptions, text_lines};

#[test]
fn carets_jump_where_the_direction_changes(rt: HostRuntime) -> Result<(), Fail> {
    // from left to right: a, b, a space, then alef at the right of bet
    let text = "ab \u{5d0}\u{5d1}";
    let mut shaper = Letters {
        text,
        fonts: &[LetterFont {
            letters: "ab \u{5d0}\u{5d1}",
            units: 100,
            above: 80,
            below: -20,
        }],
    };
    let lines = text_lines(rt.alloc(), &mut shaper, text, &ParagraphOptions::new())?;
    let carets = line_carets(rt.alloc(), &lines[0], &[])?;
    let wanted = [(0, 0), (1, 10), (2, 20), (3, 50), (5, 40), (7, 30)];
    assert_eq!(&rt; carets.len(), wanted.len());
    for (caret, (offset, x)) in carets.iter().zip(&wanted) {
        assert_eq!(&rt; caret.offset, *offset);
        assert_eq!(&rt; caret.x, *x);
    }
    // clicks lead back
    for caret in &carets {
        assert_eq!(&rt; caret_of_offset(&carets, caret.offset), caret.x);
        assert_eq!(&rt; offset_of_x(&carets, caret.x), caret.offset);
    }
    assert_eq!(&rt; offset_of_x(&carets, 47), 3);
    // the first run has a caret at its end, too
    assert_eq!(&rt; lines[0].runs.len(), 2);
    let first = run_carets(rt.alloc(), &lines[0].runs[0], &[])?;
    assert_eq!(&rt; first.len(), 4);
    assert_eq!(&rt; first[3].x, 30);
    Ok(())
}
