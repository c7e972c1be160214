// Groups of cases, run and reported.
use crate::{fill, next};
use std::io;
use std::io::{Read, Write};

// No more cases are run, of all groups together: whatever an input says, no program runs on.
const MOST: usize = 100000;

// Cases under one label, of 89 bytes and a line end, and how many there are: not 0.
#[derive(Drop)]
struct Group {
    label: [u8; 90],
    cases: usize,
}

// The next group of the input: its label and its count of cases.
fn next_group(input: &mut impl Read) -> Option<Group> {
    let mut label = [0u8; 90];
    fill(input, &mut label);
    let cases = next(input);
    if cases == 0 {
        return None;
    }
    Some(Group { label, cases })
}

impl Group {
    // The group's line. Its label is written as it stands, and need not be text.
    fn write_line(&self, rt: &impl Print, differ: usize) -> io::Result<()> {
        let cases = self.cases;
        io::writer(rt).write_all(&self.label[..89])?;
        println!(rt; "{differ} of {cases} differ")
    }

    // How many of its first cases differ, of `most` at most; the place of each in the group is written.
    fn differing<I: Read, M: Fn(&mut I, u64) -> bool>(
        &self,
        rt: &impl Print,
        input: &mut I,
        met: &M,
        most: usize,
    ) -> io::Result<usize>
        requires { M.IsAlwaysCallable met.now }
    {
        let mut differ = 0usize;
        for place in 0..self.cases.min(most) {
            let family = next(input);
            if !met(input, family) {
                println!(rt; "differs at {place}")?;
                differ += 1;
            }
        }
        Ok(differ)
    }
}

// Runs the cases of the input, and writes a line for each group. A case begins with its family's number, or that of the operation to call; `met` says
// whether what the case wants was met.
pub fn replay<I: Read + Drop, M: Fn(&mut I, u64) -> bool>(
    rt: &impl Print,
    mut input: I,
    met: M,
) -> io::Result<()>
    requires { M.IsAlwaysCallable met }
{
    let mut left = MOST;
    for _ in 0..=MOST {
        let Some(group) = next_group(&mut input) else {
            break;
        };
        let differ = group.differing(rt, &mut input, &met, left)?;
        // A group that is not run to its end has no line.
        if left < group.cases {
            break;
        }
        left -= group.cases;
        group.write_line(rt, differ)?;
    }
    Ok(())
}
