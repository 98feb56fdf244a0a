// Why work on a program is refused.

ghost use Rattle.std.specs.Prelude.{◌≡◌};
ghost use Rattle.zar_cli.specs.inner.Readings.{refusal_by};

use mass_lines::Reason;
use report_text::Refusal;

/// Why lines are refused, as a refusal of a command.
pub fn refusal_by(reason: Reason) -> Refusal
    ensures { result ≡ refusal_by reason }
{
    match reason {
        Reason::Coded(code) => Refusal::Coded(code, None),
        Reason::Memory => Refusal::Memory,
    }
}
