//! Names of cases and families.
ghost use Rattle.std.specs.List.{list_all};
ghost use Rattle.std.specs.Prelude.{◌≡◌, ◌↔◌, IsTrue};
ghost use Rattle.kit_documents.specs.Names.{is_kit_name_byte, IsKitName};

/// The name of a case has at most this number of bytes.
pub const LONGEST_NAME: usize = 80;

/// Returns whether a text consists of 1 to `most` letters from a to z, digits and hyphens.
pub fn is_name(text: &str, most: usize) -> bool
    ensures { IsTrue result ↔ IsKitName most text.now }
{
    !text.is_empty() && text.len() <= most && are_of_names(text.as_bytes())
}

/// Whether all are letters from a to z, digits and hyphens.
fn are_of_names(bytes: &[u8]) -> bool
    ensures { result ≡ list_all is_kit_name_byte bytes.now }
{
    bytes.iter().all(|byte| is_name_byte(*byte))
}

/// Whether it is a letter from a to z, a digit or a hyphen.
fn is_name_byte(byte: u8) -> bool
    ensures { result ≡ is_kit_name_byte byte }
{
    matches!(byte, b'a'..=b'z' | b'0'..=b'9' | b'-')
}
