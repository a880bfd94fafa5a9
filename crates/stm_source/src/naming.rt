//! The names of variables.

ghost use Rattle.std.specs.Prelude.{option_map, string_bytes};
ghost use Rattle.stm_terms.specs.Texts.{AppendsText};
ghost use Rattle.stm_source.specs.NameText.{name_text};

use stm_terms::NoMemory;

/// Appends the name of a variable and a space, if it has a name.
///
/// After `NoMemory` a part of the text from its front was appended.
pub fn write_name(name: Option<&str>, out: &mut String) -> Result<(), NoMemory>
    ensures { AppendsText result (string_bytes out.old) (string_bytes out.new)
        (name_text (option_map (λ n. n.now) name.entry)) }
{
    if let Some(name) = name {
        out.push_str(name)?;
        out.push_str(" ")?;
    }
    Ok(())
}
