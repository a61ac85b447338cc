// What every slice of bytes is, said where the code's types are known. The theorem over the edits' calls asks it of a block and of an output
// (proofs/Demand3.antt); `any_bytes` shows that whatever can be lent has it. Neither function does anything.
ghost use Rattle.splice.specs.Lent.{Lent};

// A call: there the checker says what it knows of each byte.
fn told(s: &[u8]) {}

fn any_bytes(s: &[u8])
    ensures { Lent s.now }
{
    told(s);
}
