//! The lines of a manifest. The longest of them have less than 600 bytes.
ghost use Rattle.std.specs.Prelude.{◌≡◌, ◌+◌, ◌≤◌, ◌++◌, length, option_map, Some, None};
ghost use Rattle.std.specs.Prelude.{IfSome, unwrap_or, codes};
ghost use Rattle.record_text.specs.Words.{number_line};
ghost use Rattle.needs_text.specs.Lines.{text_line, needs_text, needs_lines};

use crate::ShortText;
use manifest::Needs;

impl ShortText {
    fn push_text_line(&mut self, word: &str, text: &[u8])
        requires { length self.old + length word.now + length text.now + 2 ≤ 1024 }
        ensures text { self.new ≡ self.old ++ text_line word.now text.now }
        ensures short { length self.new ≤ length self.old + length word.now + length text.now + 2 }
    {
        self.push(word);
        self.push(" ");
        self.push_bytes(text);
        self.push("\n");
    }

    fn push_number_line(&mut self, word: &str, number: u64)
        requires { length self.old + length word.now + 22 ≤ 1024 }
        ensures text { self.new ≡ self.old ++ number_line word.now number }
        ensures short { length self.new ≤ length self.old + length word.now + 22 }
    {
        self.push(word);
        self.push(" ");
        self.push_number(number);
        self.push("\n");
    }

    fn push_platform_line(&mut self, name: Option<&[u8]>)
        requires name { IfSome name (λ bytes. length bytes.now ≤ 64) }
        requires room { length self.old ≤ 900 }
        ensures text { self.new ≡ self.old ++ text_line (codes "platform")
            (unwrap_or (option_map (λ bytes. bytes.now) name.entry) (codes "none")) }
        ensures short { length self.new ≤ length self.old + 74 }
    {
        match name {
            Some(bytes) => self.push_text_line("platform", bytes),
            None => self.push_text_line("platform", b"none"),
        }
    }

    fn push_need(&mut self, word: &str, key: &str, number: u64)
        requires { length self.old + length word.now + length key.now + 22 ≤ 1024 }
        ensures text { self.new ≡ self.old ++ (word.now ++ number_line key.now number) }
        ensures short { length self.new
            ≤ length self.old + length word.now + length key.now + 22 }
    {
        self.push(word);
        self.push_number_line(key, number);
    }

    fn push_four_needs(&mut self, word: &str, needs: Needs)
        requires word { length word.now ≤ 4 }
        requires room { length self.old ≤ 800 }
        ensures text { self.new ≡ self.old ++ needs_text word.now (Some needs) }
        ensures short { length self.new ≤ length self.old + 172 }
    {
        self.push_need(word, " instructions", needs.instructions);
        self.push_need(word, " sequential_begin", needs.sequential_begin);
        self.push_need(word, " sequential_end", needs.sequential_end);
        self.push_need(word, " speedup", needs.speedup as u64);
    }

    fn push_needs(&mut self, word: &str, needs: Option<Needs>)
        requires word { length word.now ≤ 4 }
        requires room { length self.old ≤ 800 }
        ensures text { self.new ≡ self.old ++ needs_text word.now needs }
        ensures short { length self.new ≤ length self.old + 172 }
    {
        match needs {
            Some(needs) => self.push_four_needs(word, needs),
            None => {
                self.push(word);
                self.push(" none\n");
            }
        }
    }
}

/// The lines of a manifest: its job, its cycle time in nanoseconds, its workers, its platform, and
/// the needs of an initialisation and of a run. Speedups are in thousandths.
pub fn manifest_text(
    job: &[u8],
    cycle_time: u64,
    workers: u32,
    platform: Option<&[u8]>,
    init: Option<Needs>,
    run: Option<Needs>,
) -> ShortText
    requires job { length job.now ≤ 64 }
    requires platform { IfSome platform (λ bytes. length bytes.now ≤ 64) }
    ensures { result ≡ needs_lines job.now cycle_time workers
        (option_map (λ bytes. bytes.now) platform.entry) init run }
{
    let mut text = ShortText::new();
    text.push_text_line("job", job);
    text.push_number_line("cycle_time", cycle_time);
    text.push_number_line("workers", workers as u64);
    text.push_platform_line(platform);
    text.push_needs("init", init);
    text.push_needs("run", run);
    text
}
