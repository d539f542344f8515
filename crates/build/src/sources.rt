// Records of commands and of creators. A payload type's record is that of its command: `Record::from(UplinkMacCommand::LinkADRAns(payload))`.
ghost use Rattle.std.specs.Prelude.{◌≡◌, ◌≤◌};
ghost use Rattle.walk.specs.Command.{uplink_cmd, downlink_cmd};
ghost use Rattle.creators.specs.Kinds as Kinds;
ghost use Rattle.creators.specs.Kinds.{told_image};
ghost use Rattle.build.specs.Handed.{rec_of};
ghost use Rattle.build.specs.Records.{frameless, of_payload, of_image};

use crate::record::Record;
use creators::{CommandKind, Image, MacCommandCreator};
use payloads::{DownlinkMacCommand, PayloadBytes, UplinkMacCommand};

fn of_payload(cid: u8, payload: PayloadBytes) -> Record
    ensures { result ≡ frameless (of_payload cid (payload.len, payload.bytes)) }
{
    Record::new(cid, payload.len, payload.bytes)
}

// The image's first byte is the CID, whatever the creator's kind.
fn of_image(image: Image) -> Record
    requires { 1 ≤ image.len }
    ensures { result ≡ frameless (of_image (told_image image)) }
{
    let [cid, a, b, c, d, e] = image.bytes;
    Record::new(cid, image.len - 1, [a, b, c, d, e])
}

// Of a command there are two impls, one line each: the two directions' enums share no trait that has both `cid` and `bytes`.
impl From<UplinkMacCommand> for Record {
    ghost from_gives = { λ c r. r ≡ frameless (rec_of (uplink_cmd c)) };

    fn from(command: UplinkMacCommand) -> Record {
        of_payload(command.cid(), command.bytes())
    }
}

impl From<DownlinkMacCommand> for Record {
    ghost from_gives = { λ c r. r ≡ frameless (rec_of (downlink_cmd c)) };

    fn from(command: DownlinkMacCommand) -> Record {
        of_payload(command.cid(), command.bytes())
    }
}

impl<K: CommandKind> From<MacCommandCreator<K>> for Record {
    ghost from_gives = { λ c r. r ≡ frameless (of_image (Kinds.built (Kinds.told_creator K.command c))) };

    fn from(creator: MacCommandCreator<K>) -> Record {
        of_image(creator.build())
    }
}
