//! Words and lines, put behind a text that grows.

ghost use Rattle.std.specs.Prelude.{◌≡◌, ◌++◌, ◌∷◌, map, codes, decimal, OnOk, length, take, OnErr};
ghost use Rattle.std.specs.Fmt.{signed_decimal};
ghost use Rattle.mpc_frac.specs.Text.{text_of as fraction_text};
ghost use Rattle.mpc_frac.specs.Fits.{FitsFrac};
ghost use Rattle.mpc_words.specs.Words.{behind_blanks};
ghost use Rattle.mpc_grammar.specs.Lines.{count_line, fractions_line};
ghost use Rattle.mpc_grammar.specs.PlantGrammar.{AllFit};
ghost use Rattle.mpc_writing.specs.Writing.{ended};

use itoa::Buffer;
use mpc_frac::{Frac, NoMemory};

/// Appends the piece. Without memory `out` stays as it was.
pub fn write_piece(piece: &[u8], out: &mut Vec<u8>) -> Result<(), NoMemory>
    ensures text { OnOk result (out.new.items ≡ out.old.items ++ piece.now) }
    ensures err { OnErr result (out.new.items ≡ out.old.items) }
    ensures kept { take (length out.old.items) out.new.items ≡ out.old.items }
{
    out.extend_from_slice(piece)?;
    Ok(())
}

/// Appends a line feed. Without memory `out` stays as it was.
pub fn end_line(out: &mut Vec<u8>) -> Result<(), NoMemory>
    ensures text { OnOk result (out.new.items ≡ out.old.items ++ codes "\n") }
    ensures err { OnErr result (out.new.items ≡ out.old.items) }
    ensures kept { take (length out.old.items) out.new.items ≡ out.old.items }
{
    write_piece(b"\n", out)
}

/// Appends a blank and the count. Without memory some of it stands there.
pub fn write_count(count: u64, out: &mut Vec<u8>) -> Result<(), NoMemory>
    ensures text { OnOk result (out.new.items ≡ out.old.items ++ 32 ∷ decimal count) }
    ensures kept { take (length out.old.items) out.new.items ≡ out.old.items }
{
    let mut buffer = Buffer::new();
    write_piece(b" ", out)?;
    write_piece(buffer.format(count).as_bytes(), out)
}

/// Appends a blank and the integer. Without memory some of it stands there.
pub fn write_integer(integer: i128, out: &mut Vec<u8>) -> Result<(), NoMemory>
    ensures text { OnOk result (out.new.items ≡ out.old.items ++ 32 ∷ signed_decimal integer) }
    ensures kept { take (length out.old.items) out.new.items ≡ out.old.items }
{
    let mut buffer = Buffer::new();
    write_piece(b" ", out)?;
    write_piece(buffer.format(integer).as_bytes(), out)
}

/// Appends a blank and the fraction. Without memory some of it stands there.
pub fn write_fraction(fraction: &Frac, out: &mut Vec<u8>) -> Result<(), NoMemory>
    ensures text { OnOk result (out.new.items ≡ out.old.items ++ 32 ∷ fraction_text fraction.now) }
    ensures fits { FitsFrac fraction.now }
    ensures kept { take (length out.old.items) out.new.items ≡ out.old.items }
{
    // Each fraction fits, and its numerator's contract says so.
    let _numerator = fraction.num();
    write_piece(b" ", out)?;
    fraction.write(out)
}

/// Appends the fractions, each behind a blank. Without memory some of them stand there.
pub fn write_fractions(fractions: &[Frac], out: &mut Vec<u8>) -> Result<(), NoMemory>
    ensures text { OnOk result (out.new.items ≡ out.old.items
        ++ behind_blanks (map fraction_text fractions.now)) }
    ensures fits { OnOk result (AllFit fractions.now) }
    ensures kept { take (length out.old.items) out.new.items ≡ out.old.items }
{
    for fraction in fractions {
        write_fraction(fraction, out)?;
    }
    Ok(())
}

/// Appends the line of the word and the count. Without memory some of it stands there.
pub fn write_count_line(first: &[u8], count: u64, out: &mut Vec<u8>) -> Result<(), NoMemory>
    ensures text { OnOk result (out.new.items ≡ out.old.items ++ ended (count_line first.now count)) }
    ensures kept { take (length out.old.items) out.new.items ≡ out.old.items }
{
    write_piece(first, out)?;
    write_count(count, out)?;
    end_line(out)
}

/// Appends the line of the word and the fractions. Without memory some of it stands there.
pub fn write_fractions_line(
    first: &[u8],
    fractions: &[Frac],
    out: &mut Vec<u8>,
) -> Result<(), NoMemory>
    ensures text { OnOk result (out.new.items ≡ out.old.items
        ++ ended (fractions_line first.now fractions.now)) }
    ensures fits { OnOk result (AllFit fractions.now) }
    ensures kept { take (length out.old.items) out.new.items ≡ out.old.items }
{
    write_piece(first, out)?;
    write_fractions(fractions, out)?;
    end_line(out)
}
