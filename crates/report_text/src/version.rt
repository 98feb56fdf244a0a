// The version.

/// The line that `--version` prints, as bytes of a text with its line feed.
pub const VERSION_LINE: &str = "zar 1.0.0\n";
