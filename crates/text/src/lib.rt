// The element of String columns, sign names as text: its definitions and laws, and the comparison of bytes. The code that reads such columns stands above.
#![tactic(auto)]

ghost use Rattle.std.specs.Prelude.{◌≡◌};
ghost use Rattle.text.specs.Text.{same_bytes};

// Are the bytes of two slices the same?
pub fn same_bytes(v: &[u8], w: &[u8]) -> bool
    ensures { result ≡ same_bytes v.now w.now }
{
    if v.len() != w.len() {
        return false;
    }
    let mut k: usize = 0;
    while k < v.len() {
        if v[k] != w[k] {
            return false;
        }
        k += 1;
    }
    true
}
