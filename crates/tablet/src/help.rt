// What is said to someone who does not know the tool, or used it wrongly.
use crate::pen::{Desk, Pen, Said};

fn say_looking(pen: &mut Pen<'_>) {
    pen.bytes(
        b"tablet: looks at blocks of columns, draws them, edits them, makes them and saves what is left of them

  tablet show FILE             the table: a row a column, with the number of its readings or where it breaks;
                               of a column that is not in our form how many bytes it has more or fewer than ours
  tablet read FILE COLUMN [START END]
                               the readings of the column at a position, one a line, absent ones as -; of all of it, or
                               from START up to, not including, END
  tablet draw FILE COLUMN [--svg OUT [--over]]
                               the readings as a picture: in the terminal, or as a file for a browser; names are not drawn;
                               of a broken column what survived, with a crack where it breaks
  tablet check FILE..          one line a file: sound, or the first refusal of each column; then those not in our form
  tablet why FILE [COLUMN]     why a block, or its column at a position, is refused: which row or which run is at fault, the
                               facts that make it so, and the bytes around the place, the number at fault in brackets
",
    )
}

fn say_writing(pen: &mut Pen<'_>) {
    pen.bytes(
        b"  tablet edit FILE COLUMN START END READING.. --to OUT [--over]
                               replaces the readings from START up to, not including, END by those given (none: takes
                               them out), and writes the new block to OUT; the word end for END means to the list's end
  tablet make OUT COLUMN.. [--over]
                               a new block of columns, each TYPE:ID=READING,READING,..  as in
                               tablet make my.block delta:1=80,80,-,81 boolean:2=1,0,0 integer:3=7,7,7
                               tablet make signs.block 'text:4=AN,KI,-,\"two words\"'
  tablet salvage FILE --to OUT [--over]
                               a sound block of what survives in a cut or broken one: whole columns as they are, of any
                               other the readings before its first fault; says of each what was done and what is gone
  tablet rewrite FILE --to OUT [--over]
                               the block with every sound column in our form, as make and edit write it; says of each what
                               was done, and how many bytes are saved
  tablet layer CORRECTIONS FIRST --to OUT [--over]
                               one block of two: each column of CORRECTIONS, and those of FIRST that CORRECTIONS has no row for;
                               a row without bytes in CORRECTIONS hides the older column
  tablet replay FILE COLUMN LOG --to OUT [--at ENTRIES] [--over]
                               the pen's log over a delta column: says what each entry does, and writes the block with the
                               column as it is at the end, or behind so many entries
  tablet script FILE           runs each line of FILE as a command (without the word tablet; # begins a remark)
",
    )
}

fn say_rules(pen: &mut Pen<'_>) {
    pen.bytes(
        b"
A column's position counts from 0. Types are delta (whole numbers, kept as differences), integer and actor (from 0 on),
boolean and text. A reading is a number, - where it is absent, or true, false, 1, 0; 80x5 stands for five times 80.
A reading of a text column is a name, as it stands or in double quotes. In quotes it may hold commas, be - or be empty.
In a name a double quote is written twice, and \\x1f stands for the byte of these hex digits: a backslash is \\x5c. Names
have no count. read lists names as make and edit take them, bytes that a terminal may take for a command as \\xNN. A shell
takes quotes for its own: put the word in single quotes as well. In a script a blank between double quotes ends no word.
A cut that falls between two runs is no fault of a column: what is left reads as a shorter one, and only the lengths in
the table show it. salvage keeps what stands before such a cut too, and says that the column lost something.
A column that is not in our form reads all the same. Most such columns take more room than ours, a few less: a literal run
with two equal neighbours may. rewrite leaves as they stand columns that do not read, and columns of absent readings alone,
for which our form has no bytes, so that the absent readings would be gone.
OUT is written completely or not at all. A file that is there already, the input among them, is left as it is, unless
--over is the last word: then it is replaced. Blocks have at most 524,288 bytes; a column that is read or drawn
has at most 10,000,000 readings, and one that is edited or made, a broken one that is salvaged, one that is
rewritten, or a text column that is read, 32,768. A list of names is given in at most 131,072 bytes.
What goes wrong is said on standard error, and ./tablet then ends with status 1.
",
    )
}

pub fn say(pen: &mut Pen<'_>) {
    say_looking(pen);
    say_writing(pen);
    say_rules(pen);
}

pub fn run(desk: Desk) -> Result<(), Said> {
    let mut out = desk.out();
    say(&mut out);
    out.finish(desk)
}

// No command was given.
pub fn missing(desk: Desk) -> Result<(), Said> {
    let mut notes = desk.notes();
    writeln!(notes, "tablet: no command was given\n");
    say(&mut notes);
    Err(Said)
}

// A command that is not used as it is meant to be.
pub fn wrong(form: &str, desk: Desk) -> Result<(), Said> {
    let mut notes = desk.notes();
    writeln!(notes, "tablet: this command is used as: tablet {form}");
    Err(Said)
}

pub fn unknown(name: &[u8], desk: Desk) -> Result<(), Said> {
    let mut notes = desk.notes();
    write!(notes, "tablet: there is no command \"");
    notes.bytes(name);
    writeln!(notes, "\"; tablet help lists them");
    Err(Said)
}
