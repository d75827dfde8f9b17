// Works the table of folding out from the rule and prints it as source, an entry a line; fold_letters has it in the formatter's layout.
#![tactic(auto)]

ghost use Rattle.std.specs.Prelude.{◌≡◌};
ghost use Rattle.fold_rule.specs.Folding as F;

use std::io;

// The letter that the die has for a byte: V for U, I for J.
fn die_sign(b: u8) -> u8
    ensures { result ≡ F.die_sign b }
{
    match b {
        b'U' => b'V',
        b'J' => b'I',
        _ => b,
    }
}

// The sign that a byte is filed as; 0 where it is no sign.
#[tactic(auto, unfolding(fold_rule::specs::Folding::fold))]
fn rule(b: u8) -> u8
    ensures { result ≡ F.fold b }
{
    let c = die_sign(b.to_ascii_uppercase());
    if tray_check::is_letter(c) { c } else { 0 }
}

// An entry on a line of its own.
fn print_entry(rt: &impl Print, sign: u8) -> io::Result<()> {
    match sign {
        0 => rt.println("    0,"),
        _ => println!(rt; "    b'{}',", char::from(sign)),
    }
}

fn print_table(rt: &impl Print) -> io::Result<()> {
    rt.println(
        "// The sign that each byte of a tray file or a text file is filed as; 0 where it is no sign. Printed by `fold_table`.",
    )?;
    rt.println("pub const FOLD: [u8; 256] = [")?;
    for b in 0..=u8::MAX {
        print_entry(rt, rule(b))?;
    }
    rt.println("];")
}

fn main(rt: HostRuntime) {
    let _ = print_table(&rt);
}
