// Blocks of records from standard input, and the answers to them.
ghost use Rattle.std.specs.Prelude.{◌≡◌, ◌+◌, ◌*◌, ◌/◌, ◌^◌, ◌<◌, ◌≤◌, ◌⊎◌, Ok, Err, length};
ghost use Rattle.reading.specs.Read.{ReadInto};

use crate::answer::Answer;
use crate::record::is_case;
use crate::run::Stop;
use reading::ReadFailed;
use std::io::{Stdin, Stdout, Write};

// How many records were read, and whether a run goes on after them.
#[derive(Clone, Copy)]
pub struct Block {
    pub count: usize,
    pub then: Result<(), Stop>,
}

// Reads records of the given width from standard input until their buffer is full or the input ends. A record that is
// cut short is a failure.
pub fn read_records(mut input: Stdin, records: &mut [u8], width: usize) -> Block
    requires { 0 < width }
    ensures { ReadInto records.old (result.count * width) records.new }
{
    match reading::fill(&mut input, records) {
        Ok(read) if read % width == 0 => Block {
            count: read / width,
            then: if read < records.len() {
                Err(Stop::Ended)
            } else {
                Ok(())
            },
        },
        Ok(read) | Err(ReadFailed { count: read }) => Block {
            count: read / width,
            then: Err(Stop::Failed),
        },
    }
}

// Writes answers.
pub fn write_answers(mut output: Stdout, answers: &[u8]) -> Result<(), Stop>
    ensures { (result ≡ Ok tt) ⊎ (result ≡ Err Stop.Failed) }
{
    output.write_all(answers).map_err(|_| Stop::Failed)
}

// What answers the cases of a program, records of CASE bytes, by N numbers each.
pub trait Answers<const CASE: usize, const N: usize> {
    fn answer(&mut self, case: &[u8; CASE]) -> Answer<N>;
}

// Reads cases until their buffer is full or the input ends, and answers each with the record of the same number. A record
// of another form is no case.
pub fn answer_block<const CASE: usize, const ANSWER: usize, const N: usize, A: Answers<CASE, N>>(
    input: Stdin,
    output: Stdout,
    records: &mut [u8],
    answers: &mut [u8],
    program: &mut A,
) -> Result<(), Stop>
    requires case { (1 < CASE) × (CASE < 2 ^ 63) }
    requires width { (ANSWER ≡ 9 * N + 2) × (ANSWER < 2 ^ 63) }
    requires room { length records.old / CASE * ANSWER ≤ length answers.old }
{
    let block = read_records(input, records, CASE);
    let places = &mut answers[..block.count * ANSWER];
    answer_each::<CASE, ANSWER, N, A>(&records[..block.count * CASE], places, program);
    write_answers(output, places)?;
    block.then
}

// Answers each case in the place of the same number.
fn answer_each<const CASE: usize, const ANSWER: usize, const N: usize, A: Answers<CASE, N>>(
    records: &[u8],
    answers: &mut [u8],
    program: &mut A,
)
    requires case { (1 < CASE) × (CASE < 2 ^ 63) }
    requires width { (ANSWER ≡ 9 * N + 2) × (ANSWER < 2 ^ 63) }
{
    let (cases, _) = records.as_chunks::<CASE>();
    let (places, _) = answers.as_chunks_mut::<ANSWER>();
    for (case, place) in cases.iter().zip(places) {
        let answer = if is_case(case) {
            program.answer(case)
        } else {
            Answer::none()
        };
        answer.put(place);
    }
}
