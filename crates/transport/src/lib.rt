// Transport packets: a container's bytes under a start code, a length and CRC_32, for an MPEG-2 transport stream (02, A5; 001, 7.2).
#![tactic(auto)]

ghost use Rattle.std.specs.Prelude.{◌≡◌, ◌+◌, ◌≤◌, length};
ghost use Rattle.laws.specs.Calls.{over};
ghost use Rattle.laws.specs.Refusals.{number_in, done_of};
ghost use Rattle.transport.specs.Writing.{transport_bytes, write_done, write_out};
ghost use Rattle.transport.specs.Reading.{start_right, frame_number, read_done, read_out};

use laws::Refusal;

mod register;
mod table;

fn put_transport(container: &[u8], out: &mut [u8])
    requires { (length container.now ≤ 254) × (length container.now + 10 ≤ length out.old) }
    ensures { out.new ≡ over (transport_bytes container.now) out.old }
{
    let n = container.len() + 4;
    let head = [0x00, 0x00, 0x01, 0xbf, (n / 256) as u8, (n % 256) as u8];
    laws::copy_at(&head, out, 0);
    laws::copy_at(container, out, 6);
    let end = n + 2;
    let crc = register::register(&out[..end]);
    laws::copy_at(&crc.to_be_bytes(), out, end);
}

// Write transport packet: 20 to 28, 12.
pub fn write_transport(container: &[u8], out: &mut [u8]) -> Result<usize, Refusal>
    ensures { (done_of result ≡ write_done container.now (length out.old)) × (out.new ≡ write_out container.now out.old) }
{
    container::check_container(container)?;
    let size = container.len() + 10;
    if out.len() < size {
        return Err(Refusal::NoRoom);
    }
    put_transport(container, out);
    Ok(size)
}

fn start_right(bytes: &[u8]) -> bool
    requires { 10 ≤ length bytes.now }
    ensures { result ≡ start_right bytes.now }
{
    matches!(bytes, [0x00, 0x00, 0x01, 0xbf, ..])
}

// The packet's own bytes: 40 to 43.
fn check_frame(bytes: &[u8]) -> Result<(), Refusal>
    ensures { number_in result ≡ frame_number bytes.now }
{
    if bytes.len() < 10 {
        return Err(Refusal::TransportTooShort);
    }
    if !start_right(bytes) {
        return Err(Refusal::StartCode);
    }
    if bytes.len() != records::pair_at(bytes, 4) + 6 {
        return Err(Refusal::TransportLength);
    }
    if register::register(bytes) != 0 {
        return Err(Refusal::Crc);
    }
    Ok(())
}

// Read transport packet: 40 to 43, 20 to 28, 12.
pub fn read_transport(bytes: &[u8], out: &mut [u8]) -> Result<usize, Refusal>
    ensures { (done_of result ≡ read_done bytes.now (length out.old)) × (out.new ≡ read_out bytes.now out.old) }
{
    check_frame(bytes)?;
    let end = bytes.len() - 4;
    container::check_container(&bytes[6..end])?;
    let size = end - 6;
    if out.len() < size {
        return Err(Refusal::NoRoom);
    }
    laws::copy_at(&bytes[6..end], out, 0);
    Ok(size)
}
