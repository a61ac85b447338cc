// A block whose file ends inside a column: which one, and where. The table itself reads; only its data are short.
use crate::pen::Pen;
use crate::rows::Piece;
use crate::{kinds, rows, walk};

// The position of the column in which the data end.
fn position_in(block: &[u8]) -> usize {
    let n = rows::count(block);
    (0..n)
        .find(|i| !rows::piece_at(block, *i).is_whole())
        .unwrap_or(n)
}

// The column in which the data end.
pub fn broken(block: &[u8]) -> Piece<'_> {
    rows::piece_at(block, position_in(block))
}

// What is known of a block that ends too early.
pub fn explain(pen: &mut Pen<'_>, block: &[u8]) {
    let position = position_in(block);
    let c = rows::piece_at(block, position);
    write!(
        pen,
        "  the file ends at byte {}, inside column {position} (",
        block.len()
    );
    writeln!(
        pen,
        "{}, id {}), which begins at byte {}: {} of its {} bytes are there",
        kinds::name(c.spec),
        kinds::id(c.spec),
        c.start,
        c.had(),
        c.len
    );
    say_fault(pen, c, position);
}

// The bytes that are there, read as far as they go.
fn say_fault(pen: &mut Pen<'_>, c: Piece<'_>, position: usize) {
    write!(pen, "  column {position}: ");
    match walk::count(c.part, kinds::of_spec(c.spec)) {
        Ok(_) => writeln!(
            pen,
            "the bytes end between two runs, where nothing but the table shows the cut"
        ),
        Err(refusal) => writeln!(pen, "{refusal}"),
    }
}
