// Mesh and broadcast headers in a row, in front of ours.
ghost use Rattle.octets.specs.Answers.{of_answer, of_read};
ghost use Rattle.std.specs.Prelude.{◌≡◌, ◌≤◌, get_or};
ghost use Rattle.octets.specs.Write.{put};
ghost use Rattle.relay.specs.Mesh.{is_mesh};
ghost use Rattle.relay.specs.Broadcast.{is_broadcast};
ghost use Rattle.relay.specs.Headers.{is_either, mesh_field, broadcast_field};
ghost use Rattle.relay.specs.Headers.{relay, has_addresses, field_length, field_bytes, relay_length, relay_wrote};
ghost use Rattle.relay.specs.Headers.{relay_over};

use super::broadcast::{BROADCAST, broadcast_len, put_broadcast, read_broadcast};
use super::mesh::Mesh;
use octets::cursor::{Cursor, Read, at_or};
use octets::refusal::Refusal;

#[derive(Clone, Copy, PartialEq, Eq)]
pub struct Relay {
    pub mesh: Option<Mesh>,
    // The broadcast header's sequence number.
    pub broadcast: Option<u8>,
}

// Past the end stands 0, which begins neither header.
fn mesh_at(frame: &[u8], c: Cursor) -> bool
    ensures { result ≡ is_mesh (get_or frame.now c.at 0) }
{
    at_or(frame, c.at, 0) / 64 == 0b10
}

fn broadcast_at(frame: &[u8], c: Cursor) -> bool
    ensures { result ≡ is_broadcast (get_or frame.now c.at 0) }
{
    at_or(frame, c.at, 0) == BROADCAST
}

fn either_at(frame: &[u8], c: Cursor) -> bool
    ensures { result ≡ is_either (get_or frame.now c.at 0) }
{
    mesh_at(frame, c) || broadcast_at(frame, c)
}

// Not one function with `read_sequence`: it would take test and reader as closures, with both contracts again.
#[tactic(auto, unfolding(crate::specs::Headers::mesh_field))]
fn read_mesh(frame: &[u8], c: Cursor) -> Read<Option<Mesh>>
    ensures { of_read result ≡ mesh_field frame.now c.at }
{
    if mesh_at(frame, c) {
        let (m, d) = Mesh::read(frame, c)?;
        Ok((Some(m), d))
    } else {
        Ok((None, c))
    }
}

#[tactic(auto, unfolding(crate::specs::Headers::broadcast_field))]
fn read_sequence(frame: &[u8], c: Cursor) -> Read<Option<u8>>
    ensures { of_read result ≡ broadcast_field frame.now c.at }
{
    if broadcast_at(frame, c) {
        let (x, d) = read_broadcast(frame, c)?;
        Ok((Some(x), d))
    } else {
        Ok((None, c))
    }
}

// Whether no address is absent.
fn has_addresses(mesh: Option<Mesh>) -> bool
    ensures { result ≡ has_addresses mesh }
{
    mesh.is_none_or(|m| m.has_both())
}

fn mesh_len(mesh: Option<Mesh>) -> usize
    ensures { (result ≡ field_length mesh) × (result ≤ 18) }
{
    mesh.map_or(0, |m| m.buffer_len())
}

#[tactic(auto, unfolding(octets::specs::Write::put))]
fn put_mesh(buf: &mut [u8], mesh: Option<Mesh>)
    ensures { buf.new ≡ put 0 (field_bytes mesh) buf.old }
{
    if let Some(m) = mesh {
        m.put(buf);
    }
}

impl Relay {
    // The headers that stand at a place of the frame, and the place after them. A second mesh header, and either header
    // behind a broadcast one, is refused; that nothing follows is not.
    #[tactic(auto, unfolding(crate::specs::Headers::relay))]
    pub fn read(frame: &[u8], c: Cursor) -> Read<Relay>
        ensures { of_read result ≡ relay frame.now c.at }
    {
        let (mesh, d) = read_mesh(frame, c)?;
        let (broadcast, e) = read_sequence(frame, d)?;
        if either_at(frame, e) {
            return Err(Refusal::Unsupported);
        }
        Ok((Relay { mesh, broadcast }, e))
    }

    pub fn buffer_len(self) -> usize
        ensures { (result ≡ relay_length self) × (result ≤ 20) }
    {
        mesh_len(self.mesh) + broadcast_len(self.broadcast)
    }

    // Writes the headers into the front of the room. An absent address is refused before the room is looked at.
    #[tactic(auto, using(crate::proofs::Puts::relay_puts))]
    pub fn emit(self, buf: &mut [u8]) -> Result<usize, Refusal>
        ensures { (of_answer result ≡ relay_wrote self buf.old)
            × (buf.new ≡ relay_over self buf.old) }
    {
        if !has_addresses(self.mesh) {
            return Err(Refusal::NoAddress);
        }
        let n = self.buffer_len();
        if buf.len() < n {
            return Err(Refusal::NoRoom);
        }
        put_mesh(buf, self.mesh);
        put_broadcast(buf, mesh_len(self.mesh), self.broadcast);
        Ok(n)
    }
}
