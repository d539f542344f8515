// The command at an offset of a stream, as a value of its own type.
ghost use Rattle.std.specs.Prelude.{◌≡◌, length};
ghost use Rattle.std.proofs.Math.Option.{some};
ghost use Rattle.table.specs.Table.{length_of};
ghost use Rattle.table.specs.Answers.{given};
ghost use Rattle.table.specs.Told.{told_verdict};
ghost use Rattle.payloads.specs.Commands.{sent_up, sent_down};
ghost use Rattle.walk.specs.Command.{uplink_cmd, downlink_cmd};
ghost use Rattle.walk.specs.Room.{HasPayload, read_by, room_for};
ghost use Rattle.walk.specs.Step.{found_at};
ghost use Rattle.walk.specs.Told.{told_command_step, told_uplink_step, told_downlink_step};
ghost use Rattle.walk.specs.Walk.{Rule, Cmd};

use payloads::{
    DevStatusAnsPayload, DevStatusReqPayload, DeviceTimeAnsPayload, DeviceTimeReqPayload,
    DlChannelAnsPayload, DlChannelReqPayload, DownlinkMacCommand, DutyCycleAnsPayload,
    DutyCycleReqPayload, LinkADRAnsPayload, LinkADRReqPayload, LinkCheckAnsPayload,
    LinkCheckReqPayload, NewChannelAnsPayload, NewChannelReqPayload, RXParamSetupAnsPayload,
    RXParamSetupReqPayload, RXTimingSetupAnsPayload, RXTimingSetupReqPayload,
    TXParamSetupAnsPayload, TXParamSetupReqPayload, UplinkMacCommand,
};
use table::{Direction, Refusal, Rules};

// What stands at an offset of a stream, where a command is a C. A command comes with the offset behind it.
#[derive(Clone, Copy, PartialEq, Eq)]
pub enum CommandStep<C> {
    End,
    Command(C, usize),
    Stop { reason: Refusal, at: usize },
    Refused(Refusal),
}

// What stands at an offset of a stream that a device sent.
pub type UplinkStep = CommandStep<UplinkMacCommand>;

// What stands at an offset of a stream that a device is sent.
pub type DownlinkStep = CommandStep<DownlinkMacCommand>;

// The commands of one direction, as they stand in a stream.
trait Sent: Copy {
    ghost rule: { Rule };

    ghost cmd: { Self → Cmd };

    // Whether the payload of a CID is all there, where so many bytes are left from the CID on.
    fn fits(cid: u8, left: usize) -> Result<(), Refusal>
        ensures { told_verdict result ≡ room_for (rule cid) left };

    // The command with this CID, of the rest of the stream behind it.
    fn read(cid: u8, rest: &[u8]) -> Self
        requires { HasPayload (rule cid) rest.now }
        ensures { given (cmd result) ≡ read_by (rule cid) cid rest.now };

    // The bytes of its payload.
    fn payload_len(self) -> usize
        ensures { result ≡ length (cmd self).body };
}

// Whether a payload of so many bytes is all there. Of the bytes left, one is the CID.
fn room_for(len: usize, left: usize) -> Result<(), Refusal>
    ensures { told_verdict result ≡ room_for (some len) left }
{
    if len < left {
        Ok(())
    } else {
        Err(Refusal::TruncatedPayload)
    }
}

// The tests of step_at once more, and no call of it: the next offset would then come from the table's length, and each step wait for it (docs/SPEED.md).
#[tactic(auto, using(crate::proofs::Steps::found_past, crate::proofs::Steps::found_end, crate::proofs::Steps::found_read, crate::proofs::Steps::found_no_room))]
fn command_at<C: Sent>(stream: &[u8], at: usize) -> CommandStep<C>
    ensures { told_command_step C.cmd result ≡ found_at C.rule stream.now at }
{
    if stream.len() <= at {
        if stream.len() < at {
            return CommandStep::Refused(Refusal::InvalidIndex);
        }
        return CommandStep::End;
    }
    let cid = stream[at];
    match C::fits(cid, stream.len() - at) {
        Ok(()) => {
            let command = C::read(cid, &stream[at + 1..]);
            // A constant in each arm of `read`: where the processor foresees the arm, it knows the next offset too
            // (docs/SPEED.md).
            CommandStep::Command(command, at + 1 + command.payload_len())
        }
        Err(reason) => CommandStep::Stop { reason, at },
    }
}

pub fn uplink_at(stream: &[u8], at: usize) -> UplinkStep
    ensures { told_uplink_step result ≡ found_at (length_of sent_up) stream.now at }
{
    command_at(stream, at)
}

pub fn downlink_at(stream: &[u8], at: usize) -> DownlinkStep
    ensures { told_downlink_step result ≡ found_at (length_of sent_down) stream.now at }
{
    command_at(stream, at)
}

impl Sent for UplinkMacCommand {
    ghost rule = { length_of sent_up };

    ghost cmd = { uplink_cmd };

    fn fits(cid: u8, left: usize) -> Result<(), Refusal> {
        match Rules::new(Direction::Up).payload_len(cid) {
            Some(len) => room_for(len, left),
            None => Err(Refusal::UnknownMacCommand),
        }
    }

    fn read(cid: u8, rest: &[u8]) -> Self {
        match cid {
            0x02 => Self::LinkCheckReq(LinkCheckReqPayload()),
            0x03 => Self::LinkADRAns(LinkADRAnsPayload(rest[0])),
            0x04 => Self::DutyCycleAns(DutyCycleAnsPayload()),
            0x05 => Self::RXParamSetupAns(RXParamSetupAnsPayload(rest[0])),
            0x06 => Self::DevStatusAns(DevStatusAnsPayload(rest[0], rest[1])),
            0x07 => Self::NewChannelAns(NewChannelAnsPayload(rest[0])),
            0x08 => Self::RXTimingSetupAns(RXTimingSetupAnsPayload()),
            0x09 => Self::TXParamSetupAns(TXParamSetupAnsPayload()),
            0x0A => Self::DlChannelAns(DlChannelAnsPayload(rest[0])),
            0x0D => Self::DeviceTimeReq(DeviceTimeReqPayload()),
            _ => unreachable!(),
        }
    }

    fn payload_len(self) -> usize {
        self.len()
    }
}

impl Sent for DownlinkMacCommand {
    ghost rule = { length_of sent_down };

    ghost cmd = { downlink_cmd };

    // Each length is a constant in its CID's arm, and not read from the walk's table: so the compiler makes one jump of this `match` and of
    // those behind it, and where the processor foresees that jump, it waits for no length. (Up, where half the commands have no payload, it
    // makes two. Measured: docs/SPEED.md.)
    fn fits(cid: u8, left: usize) -> Result<(), Refusal> {
        match cid {
            0x02 => room_for(2, left),
            0x03 => room_for(4, left),
            0x04 => room_for(1, left),
            0x05 => room_for(4, left),
            0x06 => room_for(0, left),
            0x07 => room_for(5, left),
            0x08 => room_for(1, left),
            0x09 => room_for(1, left),
            0x0A => room_for(4, left),
            0x0D => room_for(5, left),
            _ => Err(Refusal::UnknownMacCommand),
        }
    }

    fn read(cid: u8, rest: &[u8]) -> Self {
        match cid {
            0x02 => Self::LinkCheckAns(LinkCheckAnsPayload(rest[0], rest[1])),
            0x03 => Self::LinkADRReq(LinkADRReqPayload(rest[0], rest[1], rest[2], rest[3])),
            0x04 => Self::DutyCycleReq(DutyCycleReqPayload(rest[0])),
            0x05 => Self::RXParamSetupReq(RXParamSetupReqPayload(
                rest[0], rest[1], rest[2], rest[3],
            )),
            0x06 => Self::DevStatusReq(DevStatusReqPayload()),
            0x07 => Self::NewChannelReq(NewChannelReqPayload(
                rest[0], rest[1], rest[2], rest[3], rest[4],
            )),
            0x08 => Self::RXTimingSetupReq(RXTimingSetupReqPayload(rest[0])),
            0x09 => Self::TXParamSetupReq(TXParamSetupReqPayload(rest[0])),
            0x0A => Self::DlChannelReq(DlChannelReqPayload(rest[0], rest[1], rest[2], rest[3])),
            0x0D => Self::DeviceTimeAns(DeviceTimeAnsPayload(
                rest[0], rest[1], rest[2], rest[3], rest[4],
            )),
            _ => unreachable!(),
        }
    }

    fn payload_len(self) -> usize {
        self.len()
    }
}
