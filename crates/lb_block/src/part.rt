// Parts of a line, each at the end of the text so far.
ghost use Rattle.std.specs.Prelude.{◌≡◌, ◌++◌, ◌∷◌, [], OnOk, string_bytes};
ghost use Rattle.std.specs.Fmt.{decimal};
ghost use Rattle.lb_block.specs.Parts.{behind_blanks, separator};

use lb_base::NoMemory;

/// What stands before the part at a place, counted from 0: nothing before the first, the separator before each other.
pub fn push_separator(out: &mut String, between: &str, place: usize) -> Result<(), NoMemory>
    ensures { OnOk result (string_bytes out.new ≡ string_bytes out.old ++ separator between.now place) }
{
    if place > 0 {
        out.push_str(between)
    } else {
        Ok(())
    }
}

/// A word after a blank.
pub fn push_word(out: &mut String, word: &str) -> Result<(), NoMemory>
    ensures { OnOk result (string_bytes out.new ≡ string_bytes out.old ++ behind_blanks (word.now ∷ [])) }
{
    out.push_str(" ")?;
    out.push_str(word)
}

/// Two words, each after a blank.
pub fn push_words(out: &mut String, first: &str, second: &str) -> Result<(), NoMemory>
    ensures { OnOk result (string_bytes out.new ≡ string_bytes out.old ++ behind_blanks (first.now ∷ second.now ∷ [])) }
{
    push_word(out, first)?;
    push_word(out, second)
}

/// A number after a blank.
pub fn push_number(out: &mut String, n: u64) -> Result<(), NoMemory>
    ensures { OnOk result (string_bytes out.new ≡ string_bytes out.old ++ behind_blanks (decimal n ∷ [])) }
{
    write!(out, " {n}")
}
