// Words and floats on standard input and output. What is read past the end of the input is 0.
ghost use Rattle.std.specs.Prelude.{◌≤◌};

use float_bits::words::Word;
use history::{CHANNEL, WHOLE};
use std::alloc::Global;
use std::io::{BufReader, BufWriter, Bytes, Read, Result, Stdin, Stdout, Write};
use std::num::{f64_from_bits_with_nan, f64_to_bits_with_nan};

// What a case or its answer holds.
pub(crate) trait Value: Copy {
    fn read(wire: &mut Wire) -> Result<Self>;

    fn write(self, wire: &mut Wire) -> Result<()>;
}

impl Value for u32 {
    fn read(wire: &mut Wire) -> Result<u32> {
        Ok(u32::from_le_bytes(wire.bytes()?))
    }

    fn write(self, wire: &mut Wire) -> Result<()> {
        wire.write_bytes(&self.to_le_bytes())
    }
}

impl Value for f32 {
    fn read(wire: &mut Wire) -> Result<f32> {
        Ok(f32::from_word(u32::read(wire)?))
    }

    fn write(self, wire: &mut Wire) -> Result<()> {
        self.to_word().write(wire)
    }
}

// The low word first; a NaN's words are 00000000 7FF80000.
impl Value for f64 {
    fn read(wire: &mut Wire) -> Result<f64> {
        Ok(f64_from_bits_with_nan(u64::from_le_bytes(wire.bytes()?)))
    }

    fn write(self, wire: &mut Wire) -> Result<()> {
        wire.write_bytes(&f64_to_bits_with_nan(self).to_le_bytes())
    }
}

// One word: every number that is written fits it, which no contract here says, so the remainder is what `as` loses nothing of.
// Read by `as`: std has no `From` of a word to usize.
impl Value for usize {
    fn read(wire: &mut Wire) -> Result<usize> {
        Ok(u32::read(wire)? as usize)
    }

    fn write(self, wire: &mut Wire) -> Result<()> {
        ((self % 0x1_0000_0000) as u32).write(wire)
    }
}

// One after the other. Of floats alone: an array begins as zeros, and a type has no zero of its own.
impl<const N: usize> Value for [f32; N] {
    fn read(wire: &mut Wire) -> Result<[f32; N]> {
        wire.read_first(N)
    }

    fn write(self, wire: &mut Wire) -> Result<()> {
        wire.write_all(&self)
    }
}

// Both streams. A read or a write that a signal interrupts is made again, and loses nothing.
#[derive(Drop)]
pub(crate) struct Wire {
    input: Bytes<BufReader<Stdin>>,
    output: BufWriter<Stdout>,
}

impl Wire {
    pub(crate) fn new(alloc: Global, stdin: Stdin, stdout: Stdout) -> Result<Wire> {
        let reader = BufReader::new(alloc, stdin)?;
        let output = BufWriter::new(alloc, stdout)?;
        Ok(Wire {
            input: reader.bytes(),
            output,
        })
    }

    // Fills b as far as the input goes; how many bytes came. Beside `fill` of `conceal`, which waits and is proved to keep the bytes.
    pub(crate) fn fill(&mut self, b: &mut [u8]) -> Result<usize> {
        for (i, place) in b.iter_mut().enumerate() {
            match self.input.next() {
                Some(byte) => *place = byte?,
                None => return Ok(i),
            }
        }
        Ok(b.len())
    }

    // Beside `read_first`: bytes go by `fill`, which says where the input ends.
    fn bytes<const N: usize>(&mut self) -> Result<[u8; N]> {
        let mut b = [0u8; N];
        self.fill(&mut b)?;
        Ok(b)
    }

    // None where the input ends before a whole word.
    pub(crate) fn next_word(&mut self) -> Result<Option<u32>> {
        let mut b = [0u8; 4];
        let n = self.fill(&mut b)?;
        Ok((n == b.len()).then_some(u32::from_le_bytes(b)))
    }

    pub(crate) fn read<V: Value>(&mut self) -> Result<V> {
        V::read(self)
    }

    pub(crate) fn read_all<V: Value>(&mut self, x: &mut [V]) -> Result<()> {
        for place in x.iter_mut() {
            *place = V::read(self)?;
        }
        Ok(())
    }

    // Floats of which the first n come; the rest is 0.
    pub(crate) fn read_first<const N: usize>(&mut self, n: usize) -> Result<[f32; N]>
        requires { n ≤ N }
    {
        let mut x = [0.0f32; N];
        self.read_all(&mut x[..n])?;
        Ok(x)
    }

    // A history of which the first channel comes.
    pub(crate) fn read_channel(&mut self) -> Result<[f32; WHOLE]> {
        self.read_first(CHANNEL)
    }

    pub(crate) fn write_channel(&mut self, h: &[f32; WHOLE]) -> Result<()> {
        self.write_all(&h[..CHANNEL])
    }

    pub(crate) fn write<V: Value>(&mut self, v: V) -> Result<()> {
        v.write(self)
    }

    pub(crate) fn write_all<V: Value>(&mut self, x: &[V]) -> Result<()> {
        for v in x {
            v.write(self)?;
        }
        Ok(())
    }

    pub(crate) fn write_bytes(&mut self, b: &[u8]) -> Result<()> {
        self.output.write_all(b)
    }

    // Answers a value by what f makes of it.
    pub(crate) fn answer<A: Value, B: Value, F: Fn(A) -> B>(&mut self, f: F) -> Result<()>
        requires { F.IsAlwaysCallable f }
    {
        let x = self.read()?;
        self.write(f(x))
    }

    // Answers two values by what f makes of them; apart, since a closure that takes two takes no pair.
    pub(crate) fn answer_two<A: Value, B: Value, C: Value, F: Fn(A, B) -> C>(
        &mut self,
        f: F,
    ) -> Result<()>
        requires { F.IsAlwaysCallable f }
    {
        let x = self.read()?;
        let y = self.read()?;
        self.write(f(x, y))
    }

    // What has been written so far goes out.
    pub(crate) fn flush(&mut self) -> Result<()> {
        self.output.flush()
    }
}
