//! What a label is.

ghost use Rattle.std.specs.Prelude.{◌≡◌};
ghost use Rattle.std.specs.List.{list_all};
ghost use Rattle.stm_events.specs.Labels.{is_label, is_label_byte};

/// How many bytes a label may have.
pub const LONGEST_LABEL: usize = 64;

fn may_be_in_label(byte: u8) -> bool
    ensures { result ≡ is_label_byte byte }
{
    33 <= byte && byte <= 126
}

fn all_may_be_in_label(bytes: &[u8]) -> bool
    ensures { result ≡ list_all is_label_byte bytes.now }
{
    bytes.iter().all(|byte| may_be_in_label(*byte))
}

/// Whether a text is a label: at most `LONGEST_LABEL` characters of ASCII that can be seen, `!` to `~`, and not `-` alone. The empty
/// text is one; it says that there is no label.
#[tactic(auto, unfolding(crate::specs::Labels::is_label))]
pub fn is_label(text: &str) -> bool
    ensures { result ≡ is_label text.now }
{
    let bytes = text.as_bytes();
    all_may_be_in_label(bytes) && text != "-" && bytes.len() <= LONGEST_LABEL
}
