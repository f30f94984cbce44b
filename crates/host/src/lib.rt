// What the card's host calls: `host_c` exports each of these functions to C.
#![tactic(auto)]

ghost use Rattle.std.specs.Prelude.{◌≡◌, length};
ghost use Rattle.laws.specs.Refusals.{done_of};
ghost use Rattle.packet.specs.Writing.{write_done, write_out};
ghost use Rattle.packet.specs.Reading as packet;
ghost use Rattle.transport.specs.Writing as transport_writing;
ghost use Rattle.transport.specs.Reading as transport_reading;
ghost use Rattle.mending.specs.Mending.{mend_done, mend_out};
ghost use Rattle.sampling.specs.Samples.{sample_done, sample_out};
ghost use Rattle.picture.specs.Lines.{is_monitored};
ghost use Rattle.host.specs.Host.{read_done, read_out};

use laws::{Done, Refusal};

// What a container says, flat, into the lent buffer: 20 to 28, 12.
fn read_flat(bytes: &[u8], out: &mut [u8]) -> Result<usize, Refusal>
    ensures { (done_of result ≡ read_done bytes.now (length out.old)) × (out.new ≡ read_out bytes.now out.old) }
{
    let contents = container::read_container(bytes)?;
    let flat = flat::flatten(contents);
    if out.len() < 283 {
        return Err(Refusal::NoRoom);
    }
    laws::copy_at(&flat, out, 0);
    Ok(283)
}

// An answer as C is told it: the number as the result, the written length at its place.
fn tell(answer: Result<usize, Refusal>, written: &mut usize) -> u8
    ensures value { result ≡ (done_of answer).number }
    ensures written_after { written.new ≡ (done_of answer).written }
{
    let done = Done::from(answer);
    *written = done.written;
    done.number
}

// Read container, its contents flat: 20 to 28, 12.
pub fn lipsync_read_container(bytes: &[u8], out: &mut [u8], written: &mut usize) -> u8
    ensures value { result ≡ (read_done bytes.now (length out.old)).number }
    ensures out_after { out.new ≡ read_out bytes.now out.old }
    ensures written_after { written.new ≡ (read_done bytes.now (length out.old)).written }
{
    tell(read_flat(bytes, out), written)
}

// Write packet: 20 to 28, 12.
pub fn lipsync_write_packet(container: &[u8], out: &mut [u8], written: &mut usize) -> u8
    ensures value { result ≡ (write_done container.now (length out.old)).number }
    ensures out_after { out.new ≡ write_out container.now out.old }
    ensures written_after { written.new ≡ (write_done container.now (length out.old)).written }
{
    tell(packet::write_packet(container, out), written)
}

// Read packet: 30 to 36, 20 to 28, 12.
pub fn lipsync_read_packet(words: &[u8], out: &mut [u8], written: &mut usize) -> u8
    ensures value { result ≡ (packet.read_done words.now (length out.old)).number }
    ensures out_after { out.new ≡ packet.read_out words.now out.old }
    ensures written_after { written.new ≡ (packet.read_done words.now (length out.old)).written }
{
    tell(packet::read_packet(words, out), written)
}

// Write transport packet: 20 to 28, 12.
pub fn lipsync_write_transport(container: &[u8], out: &mut [u8], written: &mut usize) -> u8
    ensures value { result ≡ (transport_writing.write_done container.now (length out.old)).number }
    ensures out_after { out.new ≡ transport_writing.write_out container.now out.old }
    ensures written_after { written.new ≡ (transport_writing.write_done container.now (length out.old)).written }
{
    tell(transport::write_transport(container, out), written)
}

// Read transport packet: 40 to 43, 20 to 28, 12.
pub fn lipsync_read_transport(bytes: &[u8], out: &mut [u8], written: &mut usize) -> u8
    ensures value { result ≡ (transport_reading.read_done bytes.now (length out.old)).number }
    ensures out_after { out.new ≡ transport_reading.read_out bytes.now out.old }
    ensures written_after { written.new ≡ (transport_reading.read_done bytes.now (length out.old)).written }
{
    tell(transport::read_transport(bytes, out), written)
}

// Mend: 51, 50, 12.
pub fn lipsync_mend(recording: &[u8], out: &mut [u8], written: &mut usize) -> u8
    ensures value { result ≡ (mend_done recording.now (length out.old)).number }
    ensures out_after { out.new ≡ mend_out recording.now out.old }
    ensures written_after { written.new ≡ (mend_done recording.now (length out.old)).written }
{
    tell(mending::mend(recording, out), written)
}

// Line sampling: 1, 2, 12.
pub fn lipsync_sample_line(format: u8, line: &[u8], out: &mut [u8], written: &mut usize) -> u8
    ensures value { result ≡ (sample_done format line.now out.old).number }
    ensures out_after { out.new ≡ sample_out format line.now out.old }
    ensures written_after { written.new ≡ (sample_done format line.now out.old).written }
{
    tell(sampling::sample_line(format, line, out), written)
}

// Whether a line of a format is monitored, for a host that skips the others.
pub fn lipsync_is_monitored(format: u8, line: usize) -> bool
    ensures { result ≡ is_monitored format line }
{
    picture::is_monitored(format, line)
}
