// What every slice of words is, unsigned and signed, said where the code's types are known: the theorem over sequences of calls asks it of new readings
// (proofs/Truth.antt), and these show that whatever can be lent has it, of a signed word by itself. No function here does anything.
ghost use Rattle.std.specs.Prelude.{◌≡◌, true};
ghost use Rattle.delta_decoder.specs.Difference.{holds};
ghost use Rattle.counted_table.specs.Reached.{Words};

// A call: there the checker says what it knows of each word.
fn told(new: &[u64]) {}

fn any_words(new: &[u64])
    ensures { Words new.now }
{
    told(new);
}

fn any_signed(word: i64)
    ensures { holds word ≡ true }
{}
