//! The base behind which the paths of a document are nested.
ghost use Rattle.std.specs.Prelude.{◌≡◌};
ghost use Rattle.utoipa_command.specs.Files as specs;

/// Whether a text can stand before paths, so that each begins with a slash as the Paths Object wants it (section 4.8.8): nothing, or a text that
/// begins with one. Behind `x-v1` a path would be an extension.
pub fn is_base(text: &str) -> bool
    ensures { result ≡ specs.is_base text.now }
{
    match text.as_bytes().first() {
        Some(byte) => *byte == b'/',
        None => true,
    }
}
