// The line program as one call from C: the symbol `plot_hub_run` of include/plot_hub.h. It is `line::plot_hub_run` and says the same.
#![tactic(auto)]

ghost use Rattle.std.specs.Prelude.{◌≡◌, length};
ghost use Rattle.line_rules.specs.Program.{program_text, length_or21, buffer_with};

// "called from a web server written in C, on two byte slices: the input, and a lent buffer for the output; the result is the length written
// .. or −21".
#[unsafe(no_mangle)]
pub extern "C" fn plot_hub_run(input: &[u8], out: &mut [u8]) -> i64
    ensures answers { result ≡ length_or21 (program_text input.now) (length out.old) }
    ensures leaves { out.new ≡ buffer_with (program_text input.now) out.old }
{
    line::plot_hub_run(input, out)
}
