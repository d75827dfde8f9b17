// A sheet that is being written into a lent buffer: bytes, words, and numbers in columns.
#![tactic(auto)]

ghost use Rattle.std.specs.Prelude.{◌≡◌, [], ◌∷◌, ◌^◌, ◌≤◌, ◌<◌, length, replicate};
ghost use Rattle.file_rule.specs.Lines.{blank};
ghost use Rattle.sheet_rule.specs.Sheets as S;
ghost use Rattle.sheet_columns.specs.Steps.Wrote.{Room, Writes};

use file_rule::BLANK;

// A lent buffer, and where the next byte of the sheet goes.
#[derive(Drop)]
pub struct Sheet<'a> {
    pub out: &'a mut [u8],
    pub at: usize,
}

fn digit(d: usize) -> u8
    requires { d < 10 }
    ensures { result ≡ S.digit d }
{
    b'0' + d as u8
}

// K for a slip that is kept, S for one set aside.
pub fn sign(mark: usize) -> u8
    ensures { result ≡ S.sign_of mark }
{
    if mark == 0 { b'S' } else { b'K' }
}

impl Sheet<'_> {
    pub fn byte(&mut self, byte: u8)
        requires { Room 1 self.old }
        ensures { Writes 1 (byte ∷ []) self.old self.new }
    {
        self.out[self.at] = byte;
        self.at += 1;
    }

    pub fn text(&mut self, text: &[u8])
        requires { Room (length text.now) self.old }
        ensures { Writes (length text.now) text.now self.old self.new }
    {
        let next = self.at + text.len();
        self.out[self.at..next].copy_from_slice(text);
        self.at = next;
    }

    fn blanks(&mut self, n: usize)
        requires { Room n self.old }
        ensures { Writes n (replicate n blank) self.old self.new }
    {
        let next = self.at + n;
        self.out[self.at..next].fill(BLANK);
        self.at = next;
    }

    // Writes `n` right-justified in `width` columns: a number of one digit after blanks, another one after its tenth.
    pub fn number(&mut self, width: usize, n: usize)
        requires { (1 ≤ width) × (n < 10 ^ width) × Room width self.old }
        ensures { Writes width (S.column width n) self.old self.new }
    {
        if n < 10 {
            self.blanks(width - 1);
        } else {
            self.number(width - 1, n / 10);
        }
        self.byte(digit(n % 10));
    }
}
