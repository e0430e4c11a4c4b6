//! What the program is asked for.
use anyhow::anyhow;
use job_text::{Column, Settings};
use volumes::read_settings;

pub const USAGE: &str = "volume RULE SX SY SZ INPUT OUTPUT

Finds, for every cell of a stack of raw PBM images, a nearest marked cell and its distance.

  RULE      square, block or chess
  SX SY SZ  the spacings of the three axes, 1 to 10000
  INPUT     the stack, one image a layer, up to 16777216 cells
  OUTPUT    the field: for each cell its value, 8 bytes, then for each its point, 4 bytes,
            lowest byte first, all ones where there is none
";

/// A rule, three spacings and the paths of two files.
#[derive(Drop)]
pub struct Asked<'a> {
    pub settings: Settings,
    pub input: &'a str,
    pub output: &'a str,
}

/// Whether there are no words, or the first asks for help.
pub fn asks_for_help(words: &[String]) -> bool {
    words
        .first()
        .is_none_or(|word| matches!(word.as_str(), "--help" | "-h"))
}

/// What is wrong with the word of a column.
fn word_fault(column: Column) -> anyhow::Error {
    let axis = match column {
        Column::Rule => return anyhow!("job: cause 31: RULE is not square, block or chess"),
        Column::Sx => "SX",
        Column::Sy => "SY",
        Column::Sz => "SZ",
    };
    anyhow!("job: cause 31: {axis} is not a number from 1 to 10000")
}

/// Whether the output, or the part file that is written before it, has the input's name.
fn replaces(output: &str, input: &str) -> bool {
    output == input || input.strip_suffix(".part").unwrap_or(input) == output
}

/// The words RULE SX SY SZ INPUT OUTPUT.
pub fn read_words(words: &[String]) -> anyhow::Result<Asked<'_>> {
    let [rule, sx, sy, sz, input, output] = words else {
        return Err(anyhow!("the words are RULE SX SY SZ INPUT OUTPUT (volume --help tells more)"));
    };
    if replaces(output, input) {
        return Err(anyhow!("the output would replace the input"));
    }
    let settings = read_settings(rule, sx, sy, sz).map_err(word_fault)?;
    Ok(Asked {
        settings,
        input,
        output,
    })
}
