// Texts with holes.
ghost use Rattle.std.specs.Prelude.{◌≡◌, ◌∷◌, [], ◌++◌, IfOk, OnOk};
ghost use Rattle.dk_languages.specs.Holes.{filled, filled_letter};

use dk_base::{NoMemory, Text};
use std::alloc::Global;

/// What stands for a letter of a text with holes.
#[derive(Debug, Drop)]
pub struct Filling {
    /// The letter of the hole.
    pub letter: u8,
    /// What stands for it.
    pub text: Text,
}

// What stands for the letter, behind the text.
fn push_letter(text: &mut Text, fillings: &[Filling], letter: u8) -> Result<(), NoMemory>
    ensures { OnOk result (text.new ≡ text.old ++ filled_letter fillings.now letter) }
{
    for filling in fillings {
        if filling.letter == letter {
            return text.append(filling.text.as_slice());
        }
    }
    text.push(letter)
}

/// The template with its holes filled, behind the text.
pub(crate) fn push_filled(
    text: &mut Text,
    fillings: &[Filling],
    template: &str,
) -> Result<(), NoMemory>
    ensures { OnOk result (text.new ≡ text.old ++ filled fillings.now template.now) }
{
    let letters = template.as_bytes();
    for letter in letters {
        push_letter(text, fillings, *letter)?;
    }
    Ok(())
}

/// The template with its holes filled.
pub(crate) fn fill(alloc: Global, fillings: &[Filling], template: &str) -> Result<Text, NoMemory>
    ensures { IfOk result (λ text. text ≡ filled fillings.now template.now) }
{
    let mut text = Text::new(alloc);
    push_filled(&mut text, fillings, template)?;
    Ok(text)
}
