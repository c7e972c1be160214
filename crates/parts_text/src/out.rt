// The text that is printed, written byte by byte.
ghost use Rattle.std.specs.Prelude.{◌≡◌, ◌++◌};
ghost use Rattle.partitions.specs.Walk.{tested};
ghost use Rattle.parts_text.specs.Printed.{filled, shown};
ghost use Rattle.parts_text.specs.Text.{decimal, joined, spaced, newline, last_line};
ghost use Rattle.parts_text.specs.Reading.{finished};
ghost use Rattle.parts_text.specs.Inner.{put, puts, listed};

use crate::Reading;
use partitions::CompositionIter;
use refusals::Refusal;

// The first `len` bytes are the text. A byte past the array's end would be left out, and none is: every text fits (proofs/Fits.antt).
#[derive(Clone, Copy)]
pub struct Text {
    bytes: [u8; 4096],
    len: usize,
}

impl Text {
    // The text, to be written out.
    pub fn as_bytes(&self) -> &[u8]
        ensures { result.now ≡ shown self.now }
    {
        &self.bytes[..self.len.min(self.bytes.len())]
    }

    fn push(&mut self, b: u8)
        ensures { self.new ≡ put self.old b }
    {
        if self.len < self.bytes.len() {
            self.bytes[self.len] = b;
            self.len += 1;
        }
    }

    fn push_all(&mut self, bytes: &[u8])
        ensures { self.new ≡ puts self.old bytes.now }
    {
        for b in bytes {
            self.push(*b);
        }
    }

    fn push_decimal(&mut self, n: u64)
        ensures { self.new ≡ puts self.old (decimal n) }
    {
        if 10 <= n {
            self.push_decimal(n / 10);
        }
        self.push(b'0' + (n % 10) as u8);
    }

    fn push_spaced(&mut self, n: u64)
        ensures { self.new ≡ puts self.old (spaced n) }
    {
        self.push(b' ');
        self.push_decimal(n);
    }

    fn push_parts(&mut self, parts: &[usize])
        ensures { self.new ≡ puts self.old (joined spaced parts.now) }
    {
        for part in parts {
            self.push_spaced(*part as u64);
        }
    }

    // A number, then the parts, and the line's end.
    fn push_line(&mut self, count: u64, parts: &[usize])
        ensures { self.new ≡ puts self.old (decimal count ++ joined spaced parts.now ++ newline) }
    {
        self.push_decimal(count);
        self.push_parts(parts);
        self.push(b'\n');
    }

    // A word, a number, and the line's end.
    fn push_last(&mut self, word: &[u8], n: u64)
        ensures { self.new ≡ puts self.old (last_line word.now n) }
    {
        self.push_all(word);
        self.push_spaced(n);
        self.push(b'\n');
    }

    // A line for each list of a pair, then the total.
    fn push_lists(&mut self, order: usize, len: usize) -> Result<(), Refusal>
        ensures { (result ≡ tested order len) × (self.new ≡ puts self.old (listed order len)) }
    {
        let mut walk = CompositionIter::try_new(order, len)?;
        while let Some(parts) = walk.next()? {
            let list = &parts[..len];
            let count = partitions::multiplicity(list)?;
            self.push_line(count, list);
        }
        let total = part_counts::total_multiplicity(order, len)?;
        self.push_last(b"total", total);
        Ok(())
    }

    // What is printed where the input ends.
    fn push_finished(&mut self, state: Reading)
        ensures { self.new ≡ puts self.old (finished state) }
    {
        let answer = match state {
            Reading::InLen(order, len) | Reading::AfterLen(order, len) => {
                self.push_lists(order, len)
            }
            _ => Err(Refusal::Shape),
        };
        if let Err(refusal) = answer {
            self.push_last(b"refused", refusal.number() as u64);
        }
    }
}

// The text of what was read. The longest has 2134 bytes.
pub fn report(state: Reading) -> Text
    ensures { (shown result ≡ finished state) × (result ≡ filled (finished state)) }
{
    let mut text = Text {
        bytes: [0; 4096],
        len: 0,
    };
    text.push_finished(state);
    text
}
