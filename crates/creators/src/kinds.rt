// The two kinds of creators: which command it is, beside its image. The Rust has an enum of creators for each direction, and so ten arms in each method of each.
ghost use Rattle.std.specs.Prelude.{◌≡◌, ◌+◌};
ghost use Rattle.table.specs.Table.{Command};
ghost use Rattle.creators.specs.Apart.{uplink_kinds_apart, downlink_kinds_apart};
ghost use Rattle.creators.specs.Kinds.{
  uplink_command,
  downlink_command,
  beside,
  built,
  told_creator,
  told_image,
};

use crate::creator::Creator;

// What the table has of a command: its CID, and the bytes of its payload.
#[derive(Clone, Copy)]
pub struct Entry {
    pub cid: u8,
    pub size: u8,
}

// The commands of one direction.
pub trait CommandKind: Copy {
    ghost command: { Self → Command };

    // No two are one command
    ghost apart: { (k m : Self) → command k ≡ command m → k ≡ m };

    // By number, once more beside the table: that they are the table's is proved.
    fn entry(self) -> Entry
        ensures cid { result.cid ≡ (command self).cid }
        ensures size { result.size ≡ (command self).size };
}

// The commands that are sent up.
#[derive(Clone, Copy)]
pub enum UplinkKind {
    LinkCheckReq,
    LinkADRAns,
    DutyCycleAns,
    RXParamSetupAns,
    DevStatusAns,
    NewChannelAns,
    RXTimingSetupAns,
    TXParamSetupAns,
    DlChannelAns,
    DeviceTimeReq,
}

impl CommandKind for UplinkKind {
    ghost command = { uplink_command };

    ghost apart = { uplink_kinds_apart };

    fn entry(self) -> Entry {
        match self {
            UplinkKind::LinkCheckReq => Entry { cid: 0x02, size: 0 },
            UplinkKind::LinkADRAns => Entry { cid: 0x03, size: 1 },
            UplinkKind::DutyCycleAns => Entry { cid: 0x04, size: 0 },
            UplinkKind::RXParamSetupAns => Entry { cid: 0x05, size: 1 },
            UplinkKind::DevStatusAns => Entry { cid: 0x06, size: 2 },
            UplinkKind::NewChannelAns => Entry { cid: 0x07, size: 1 },
            UplinkKind::RXTimingSetupAns => Entry { cid: 0x08, size: 0 },
            UplinkKind::TXParamSetupAns => Entry { cid: 0x09, size: 0 },
            UplinkKind::DlChannelAns => Entry { cid: 0x0A, size: 1 },
            UplinkKind::DeviceTimeReq => Entry { cid: 0x0D, size: 0 },
        }
    }
}

// The commands that are sent down.
#[derive(Clone, Copy)]
pub enum DownlinkKind {
    LinkCheckAns,
    LinkADRReq,
    DutyCycleReq,
    RXParamSetupReq,
    DevStatusReq,
    NewChannelReq,
    RXTimingSetupReq,
    TXParamSetupReq,
    DlChannelReq,
    DeviceTimeAns,
}

impl CommandKind for DownlinkKind {
    ghost command = { downlink_command };

    ghost apart = { downlink_kinds_apart };

    fn entry(self) -> Entry {
        match self {
            DownlinkKind::LinkCheckAns => Entry { cid: 0x02, size: 2 },
            DownlinkKind::LinkADRReq => Entry { cid: 0x03, size: 4 },
            DownlinkKind::DutyCycleReq => Entry { cid: 0x04, size: 1 },
            DownlinkKind::RXParamSetupReq => Entry { cid: 0x05, size: 4 },
            DownlinkKind::DevStatusReq => Entry { cid: 0x06, size: 0 },
            DownlinkKind::NewChannelReq => Entry { cid: 0x07, size: 5 },
            DownlinkKind::RXTimingSetupReq => Entry { cid: 0x08, size: 1 },
            DownlinkKind::TXParamSetupReq => Entry { cid: 0x09, size: 1 },
            DownlinkKind::DlChannelReq => Entry { cid: 0x0A, size: 4 },
            DownlinkKind::DeviceTimeAns => Entry { cid: 0x0D, size: 5 },
        }
    }
}

// An image as it is sent: the first len bytes. Those after them do not count. The number stands beside the bytes, and no Vec holds them: nothing here
// takes memory from a heap (C links it).
#[derive(Clone, Copy)]
pub struct Image {
    pub len: usize,
    pub bytes: [u8; 6],
}

// A creator of any command of one direction.
#[derive(Clone, Copy)]
pub struct MacCommandCreator<K> {
    kind: K,
    image: [u8; 6],
}

pub type UplinkMacCommandCreator = MacCommandCreator<UplinkKind>;

pub type DownlinkMacCommandCreator = MacCommandCreator<DownlinkKind>;

impl<K: CommandKind> MacCommandCreator<K> {
    // The creator's command, with its image. (`From` for every creator would overlap the library's impl for a type itself.)
    #[tactic(auto, using(crate::proofs::Padded::in_room))]
    pub fn of<const N: usize, C: Creator<N, Kind = K>>(creator: C) -> Self
        ensures { told_creator K.command result ≡ beside C.command (C.image creator) }
    {
        let mut image = [0; 6];
        image[..N].copy_from_slice(&creator.build());
        MacCommandCreator {
            kind: creator.kind(),
            image,
        }
    }

    // Which command it is.
    pub fn kind(self) -> K
        ensures { result ≡ self.kind }
    {
        self.kind
    }

    // The CID of the kind, whatever the image's first byte.
    pub fn cid(self) -> u8
        ensures { result ≡ (told_creator K.command self).0.cid }
    {
        self.kind.entry().cid
    }

    // The image's length.
    pub fn len(self) -> usize
        ensures { result ≡ 1 + (told_creator K.command self).0.size }
    {
        1 + usize::from(self.kind.entry().size)
    }

    pub fn build(self) -> Image
        ensures { told_image result ≡ built (told_creator K.command self) }
    {
        Image {
            len: self.len(),
            bytes: self.image,
        }
    }
}
