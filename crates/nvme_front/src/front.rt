//! The front: the lengths of a command's buffers, and the command done.

ghost use Rattle.std.specs.Prelude.{◌≡◌, ◌-◌, ◌≤◌, ◌<◌, ◌+◌, ◌*◌, ◌^◌, [], true, List, Some, None, IfErr, IfOk, length, drop, take};
ghost use Rattle.std.specs.List.{list_all};
ghost use Rattle.rig_api.specs.Log.{HasRoom, capacity_len};
ghost use Rattle.rig_api.specs.Telling.{greatest_size};
ghost use Rattle.rig_api.specs.State.{Exchanged, Stays};
ghost use Rattle.rig_api.specs.Requests.{blocks_of};
ghost use Rattle.nvme_front.specs.Answers.{HasNamespaces};
ghost use Rattle.nvme_front.specs.Results.{AnswersCalm, IsAnswered};
ghost use Rattle.nvme_front.specs.Exchanges.{ExchangeDone};
ghost use Rattle.nvme_front.specs.Buffers.{room_for};
ghost use Rattle.nvme_front.specs.Commands.{HasSpan, command_in};
ghost use Rattle.nvme_front.specs.Refusals.{body_len, device_at, has_meta, has_namespace, has_size, meta_len, refusal};
ghost use Rattle.nvme_front.specs.Translation.{scsi_command};
ghost use Rattle.pi_tuple.specs.declared.TheConstants.{LARGEST_BLOCK};

use crate::buffers::{cut, deliver, has_meta, put_out, room_for};
use crate::completion::completed;
use crate::refusal::refusal;
use crate::translation::scsi_command;
use crate::{Completion, NvmCommand};
use arrayvec::ArrayVec;
use pi_tuple::{PiType, TUPLE};
use rig_api::{Outcome, Rig};
use std::alloc::{AllocError, Global};
use std::marker::Model;
use volume_table::DeviceInfo;

/// The most bytes of the frames of a command: 1,024 blocks of 4,096 bytes of data with their tuples.
const MOST_BYTES: usize = 4_202_496;

/// Namespaces that are devices: namespace `n` is the device of number `n - 1`.
#[derive(Drop)]
pub struct NvmFront {
    devices: ArrayVec<DeviceInfo, 8>,
    // The frames of one command, one after another.
    frames: Vec<u8>,
}

impl Model for NvmFront {
    ghost use Rattle.std.specs.Prelude.{◌≡◌, ◌≤◌, List, length, true};
    ghost use Rattle.std.specs.List.{list_all};
    ghost use Rattle.volume_table.specs.declared.device.DeviceInfo.{DeviceInfo};
    ghost use Rattle.nvme_front.specs.Refusals.{has_size};

    ghost Value = { List DeviceInfo };

    ghost view = { λ f. f.devices.items };

    ghost invariant = { λ f. (length f.devices.items ≤ 8) × (list_all has_size f.devices.items ≡ true) × (length f.frames.items ≡ 4202496) };
}

impl NvmFront {
    /// The front of these devices, at most eight, whose blocks have 512 or 4,096 bytes. It takes all
    /// the memory that its calls need.
    pub fn new(alloc: Global, devices: &[DeviceInfo]) -> Result<NvmFront, AllocError>
        requires few { length devices.now ≤ 8 }
        requires sizes { list_all has_size devices.now ≡ true }
        ensures { IfOk result (λ f. f ≡ devices.now) }
    {
        let mut held = ArrayVec::new();
        match held.try_extend_from_slice(devices) {
            Ok(()) => {}
            Err(_) => unreachable!(),
        }
        Ok(NvmFront {
            devices: held,
            frames: vec![in alloc; 0; MOST_BYTES]?,
        })
    }

    /// The device of a namespace.
    fn device(&self, nsid: u32) -> DeviceInfo
        requires { has_namespace self.now nsid ≡ true }
        ensures value { result ≡ device_at self.now nsid }
        ensures size { has_size result ≡ true }
    {
        self.devices[nsid as usize - 1]
    }

    /// The bytes of data and of metadata that a command of these 64 bytes takes or gives, or the
    /// completion by which it is refused.
    ///
    /// Metadata are the tuples of the blocks, eight bytes each, on a unit with tuples and without
    /// PRACT. The refusals are, in this order: another opcode than 01h and 02h, 0h/01h; a fuse bit or
    /// one of the bits 25 to 16 of dword 12, 0h/02h; no such namespace, 0h/0Bh; more than 1,024
    /// blocks, 0h/02h; the reference bit of PRCHK on type 3, 1h/81h; PRCHK other than 0, 4 and 5 on
    /// type 1, 0, 4, 5 and 7 on type 2, 0 and 4 on type 3, 0h/02h; on type 1, with PRCHK 5 or on a
    /// write with PRACT, another initial reference tag than the low 32 bits of the first LBA, 1h/81h;
    /// an LBA behind the last block of 2^64 or more, 0h/80h.
    pub fn lengths(&self, sqe: &[u8; 64]) -> Result<(u32, u32), Completion>
        ensures granted { IfOk result (λ p. refusal self.now (command_in sqe.now) ≡ None) }
        ensures body { IfOk result (λ p. p.0 ≡ body_len (device_at self.now (command_in sqe.now).nsid) (command_in sqe.now)) }
        ensures meta { IfOk result (λ p. p.1 ≡ meta_len (device_at self.now (command_in sqe.now).nsid).ty (command_in sqe.now)) }
        ensures refused { IfErr result (λ r. refusal self.now (command_in sqe.now) ≡ Some r) }
    {
        let command = NvmCommand::of(sqe);
        match refusal(&self.devices, &command) {
            Some(refused) => Err(refused),
            None => {
                let device = self.device(command.nsid);
                let body = command.count * device.size;
                if has_meta(device.ty, &command) {
                    Ok((body, command.count * TUPLE as u32))
                } else {
                    Ok((body, 0))
                }
            }
        }
    }

    /// Does the command of these 64 bytes, which isn't refused, with buffers of the lengths that
    /// `lengths` tells: one SCSI command is sent, and the completion is that of its outcome.
    ///
    /// With PRACT a write gets tuples that are made here, with the guard of the data, the command's
    /// application tag, and its initial reference tag, which on the types 1 and 2 rises by one with
    /// each block; and a read drops its tuples. A read that fails leaves zeros in both buffers, a
    /// write leaves them as they are. 2h/80h and 2h/81h come only where the rig's count of faults
    /// rose, 0h/06h never over a rig that tells its blocks. No memory is taken.
    pub fn submit<R: Rig>(
        &mut self,
        sqe: &[u8; 64],
        body: &mut [u8],
        meta: &mut [u8],
        rig: &mut R,
    ) -> Completion
        requires granted { refusal self.old (command_in sqe.now) ≡ None }
        requires body { length body.old ≡ body_len (device_at self.old (command_in sqe.now).nsid) (command_in sqe.now) }
        requires meta { length meta.old ≡ meta_len (device_at self.old (command_in sqe.now).nsid).ty (command_in sqe.now) }
        requires devices { HasNamespaces self.old (R.state rig.old).standing (R.state rig.old).units }
        requires room { HasRoom (greatest_size (R.state rig.old).standing) 1 (command_in sqe.now).count (R.state rig.old).room }
        ensures answered { IsAnswered self.old (command_in sqe.now) body.old meta.old body.new meta.new result (R.state rig.old) (R.state rig.new) }
        ensures calm { AnswersCalm (command_in sqe.now) body.old meta.old body.new meta.new result (R.state rig.old) (R.state rig.new) }
        ensures stays { Stays (R.state rig.old) (R.state rig.new) }
        ensures front { self.new ≡ self.old }
    {
        let command = NvmCommand::of(sqe);
        let device = self.device(command.nsid);
        run(
            command.nsid - 1,
            device,
            &command,
            body,
            meta,
            &mut self.frames,
            rig,
        )
    }
}

/// Does a command of a device: puts its frames out, has one exchange made, and delivers what came.
fn run<R: Rig>(
    dev: u32,
    device: DeviceInfo,
    command: &NvmCommand,
    body: &mut [u8],
    meta: &mut [u8],
    frames: &mut [u8],
    rig: &mut R,
) -> Completion
    requires there { dev < (R.state rig.old).standing.devices }
    requires size { device.size ≤ LARGEST_BLOCK }
    requires span { HasSpan command.now }
    requires body { length body.old ≡ body_len device command.now }
    requires meta { length meta.old ≡ meta_len device.ty command.now }
    requires frames { length frames.old ≡ 4202496 }
    requires room { HasRoom (greatest_size (R.state rig.old).standing) 1 command.now.count (R.state rig.old).room }
    ensures done { ExchangeDone dev device command.now body.old meta.old body.new meta.new result (R.state rig.old) (R.state rig.new) }
    ensures long { length frames.new ≡ length frames.old }
{
    let size = device.size as usize;
    let cdb = scsi_command(device.ty, command).encode();
    let sent = put_out(device.ty, command, size, body, meta, frames);
    let room = room_for(device.ty, command, size);
    let outcome = send(dev, &cdb, sent, room, frames, rig);
    let done = completed(command.count, outcome);
    let (_, behind) = cut(frames, sent);
    let (came, _) = cut(behind, room);
    deliver(device.ty, command, size, done, came, body, meta);
    done
}

/// Hands the command block to the device, with the first bytes of the buffer to write, and with those
/// behind them as room for what is read.
fn send<R: Rig>(
    dev: u32,
    cdb: &[u8],
    sent: usize,
    room: usize,
    frames: &mut [u8],
    rig: &mut R,
) -> Outcome
    requires device { dev < (R.state rig.old).standing.devices }
    requires short { length cdb.now ≤ 32 }
    requires space { sent + room ≤ length frames.old }
    requires room { HasRoom (greatest_size (R.state rig.old).standing) 1 (blocks_of cdb.now) (R.state rig.old).room }
    requires capacity { capacity_len cdb.now room ≡ 0 }
    ensures exchanged { Exchanged (R.state rig.old) (R.state rig.new) dev cdb.now [] (take sent frames.old) (take room (drop sent frames.old)) (take room (drop sent frames.new)) result }
    ensures long { length frames.new ≡ length frames.old }
{
    let (out, behind) = frames.split_at_mut(sent);
    let (into, _) = behind.split_at_mut(room);
    rig.exchange(dev, cdb, &[], out, into)
}
