//! Answers as bytes.

ghost use Rattle.std.specs.Prelude.{◌≡◌, ◌≤◌, ◌+◌, ◌++◌, length, take, OnOk, OnErr};
ghost use Rattle.std.specs.Io.KnownBytes.{Appends};
ghost use Rattle.byte_devices.specs.Device.{device_of, faults_of, AppendsFront, HasFault};
ghost use Rattle.service_steps.specs.Frames.{status_of, answer_head, answer_text};

use crate::Answer;
use byte_devices::{Counted, DeviceFault, write_all};
use byteorder::{BigEndian, ByteOrder};
use std::io::Write;

// How many bytes come before the reply.
const HEAD: usize = 17;

// The longest frame that is written by one call.
const SHORT: usize = 1_024;

fn status_of(answer: Answer) -> (u8, u64)
    ensures { (result.0, result.1) ≡ status_of answer }
{
    match answer {
        Answer::Ok => (0, 0),
        Answer::Fault(code) => (1, code as u64),
        Answer::Memory(items) => (2, items),
    }
}

#[tactic(auto, unfolding(crate::specs::Frames::answer_head))]
fn answer_head(answer: Answer, size: u64) -> [u8; HEAD]
    ensures { result ≡ answer_head answer size }
{
    let (status, value) = status_of(answer);
    let mut head = [0; HEAD];
    head[0] = status;
    BigEndian::write_u64(&mut head[1..9], value);
    BigEndian::write_u64(&mut head[9..], size);
    head
}

// Puts the two parts of a short frame side by side, and answers how long the frame is.
fn join_parts(frame: &mut [u8; SHORT], head: &[u8; HEAD], reply: &[u8]) -> usize
    requires { length reply.now ≤ 1007 }
    ensures size { result ≡ 17 + length reply.now }
    ensures joined { take result frame.new ≡ head.now ++ reply.now }
{
    let size = HEAD + reply.len();
    frame[..HEAD].copy_from_slice(head);
    frame[HEAD..size].copy_from_slice(reply);
    size
}

// Writes a short frame by one call, so that its reader need not wait twice, and a long one by a call
// for each part.
fn write_parts<W: Write>(
    writer: &mut Counted<W>,
    head: &[u8; HEAD],
    reply: &[u8],
) -> Result<(), DeviceFault>
    ensures written { OnOk result (Appends (W.contents (device_of writer.old))
        (W.contents (device_of writer.new)) (head.now ++ reply.now)) }
    ensures well { OnOk result (faults_of writer.new ≡ faults_of writer.old) }
    ensures front { OnErr result (AppendsFront (W.contents (device_of writer.old))
        (W.contents (device_of writer.new)) (head.now ++ reply.now)) }
    ensures cause { OnErr result (HasFault (faults_of writer.old) (faults_of writer.new)) }
{
    if reply.len() > SHORT - HEAD {
        write_all(writer, head)?;
        write_all(writer, reply)
    } else {
        let mut frame = [0; SHORT];
        let size = join_parts(&mut frame, head, reply);
        write_all(writer, &frame[..size])
    }
}

/// Writes an answer and the bytes of its reply as one frame. Takes no memory.
///
/// `DeviceFault` (68) if a call of the writer failed. A prefix of the frame has then been written,
/// and the writer's count of `faults` has risen, unless it was at its greatest.
pub fn write_answer<W: Write>(
    writer: &mut Counted<W>,
    answer: Answer,
    reply: &[u8],
) -> Result<(), DeviceFault>
    ensures written { OnOk result (Appends (W.contents (device_of writer.old))
        (W.contents (device_of writer.new)) (answer_text answer reply.now)) }
    ensures well { OnOk result (faults_of writer.new ≡ faults_of writer.old) }
    ensures front { OnErr result (AppendsFront (W.contents (device_of writer.old))
        (W.contents (device_of writer.new)) (answer_text answer reply.now)) }
    ensures cause { OnErr result (HasFault (faults_of writer.old) (faults_of writer.new)) }
{
    let head = answer_head(answer, reply.len() as u64);
    write_parts(writer, &head, reply)
}
