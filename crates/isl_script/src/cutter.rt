//! Where the statements of a script end.

ghost use Rattle.std.specs.Prelude.{◌≡◌, ℕ, ◌-◌, ◌^◌, ◌<◌, ◌↔◌, List, [], ◌∷◌, ◌++◌, IsTrue, MatchBool};
ghost use Rattle.isl_script.specs.Script.{is_blank as is_blank_byte, ends, IsBlank};
ghost use Rattle.isl_script.specs.Cutter.{IsAt};

use std::marker::Model;

/// Cuts the bytes of a script into statements, one byte at a time, and keeps none of them.
#[derive(Clone, Copy)]
pub struct Cutter {
    in_comment: bool,
    depth: u32,
    blank: bool,
}

impl Model for Cutter {
    ghost use Rattle.isl_script.specs.Cutter.{Known};

    ghost Value = { Known };

    ghost view = { λ c. record {
      place = record { in_comment = c.in_comment; depth = c.depth };
      blank = c.blank;
    } };

    ghost inverse = { λ k. record {
      in_comment = k.place.in_comment;
      depth = k.place.depth;
      blank = k.blank;
    } };
}

impl Cutter {
    /// A cutter at the start of a script.
    pub fn new() -> Cutter
        ensures { IsAt result [] }
    {
        Cutter {
            in_comment: false,
            depth: 0,
            blank: true,
        }
    }

    /// Takes the next byte of the script, and says whether it is a `;` that ends a statement. No more than
    /// 2^32 - 1 brackets may be open at once.
    pub fn push(&mut self, byte: u8) -> bool
        requires { self.old.place.depth < 2 ^ 32 - 1 }
        ensures ends { (part : List ℕ) → IsAt self.old part → (result ≡ ends part byte) }
        ensures part { (part : List ℕ) → IsAt self.old part
            → MatchBool result (IsAt self.new []) (IsAt self.new (part ++ byte ∷ [])) }
    {
        self.in_comment = byte != b'\n' && (self.in_comment || byte == b'#');
        if self.in_comment {
            return false;
        }
        match byte {
            b';' if self.depth == 0 => {
                *self = Cutter::new();
                return true;
            }
            b'(' | b'[' | b'{' => self.depth += 1,
            b')' | b']' | b'}' => self.depth = self.depth.saturating_sub(1),
            _ => {}
        }
        self.blank = self.blank && is_blank(byte);
        false
    }

    /// Whether only blanks and comments came since the last `;` that ended a statement, or since the start.
    pub fn blank(&self) -> bool
        ensures { (part : List ℕ) → IsAt self.now part → (IsTrue result ↔ IsBlank part) }
    {
        self.blank
    }
}

fn is_blank(byte: u8) -> bool
    ensures { result ≡ is_blank_byte byte }
{
    matches!(byte, b' ' | b'\t' | b'\r' | b'\n')
}
