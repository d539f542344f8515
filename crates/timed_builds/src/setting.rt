// Creators of commands that a device is sent, each with every field set from five bytes. No checked setter refuses here: each is given what its field holds.
use build::Record;
use creators::{
    Creator, DevStatusReqCreator, DeviceTimeAnsCreator, DlChannelReqCreator,
    DownlinkMacCommandCreator, DutyCycleReqCreator, LinkADRReqCreator, LinkCheckAnsCreator,
    NewChannelReqCreator, RXParamSetupReqCreator, RXTimingSetupReqCreator, TXParamSetupReqCreator,
};
use fields::{ChannelMask2, DLSettings, DataRateRange, Frequency, Redundancy};

fn link_check_ans([a, b, _, _, _]: [u8; 5]) -> LinkCheckAnsCreator {
    LinkCheckAnsCreator::new()
        .set_margin(a)
        .set_gateway_count(b)
}

fn link_adr_req([a, b, c, d, _]: [u8; 5]) -> LinkADRReqCreator {
    let mut creator = LinkADRReqCreator::new();
    let _ = creator.set_data_rate(a / 16);
    let _ = creator.set_tx_power(a % 16);
    creator
        .set_channel_mask(ChannelMask2::from([b, c]))
        .set_redundancy(Redundancy::from(d))
}

fn duty_cycle_req([a, ..]: [u8; 5]) -> DutyCycleReqCreator {
    DutyCycleReqCreator::new().set_max_duty_cycle(a % 16)
}

fn rx_param_setup_req([a, b, c, d, _]: [u8; 5]) -> RXParamSetupReqCreator {
    RXParamSetupReqCreator::new()
        .set_dl_settings(DLSettings::from(a))
        .set_frequency(Frequency::from([b, c, d]))
}

fn new_channel_req([a, b, c, d, e]: [u8; 5]) -> NewChannelReqCreator {
    NewChannelReqCreator::new()
        .set_channel_index(a)
        .set_frequency(Frequency::from([b, c, d]))
        .set_data_rate_range(DataRateRange::from(e))
}

fn rx_timing_setup_req([a, ..]: [u8; 5]) -> RXTimingSetupReqCreator {
    let mut creator = RXTimingSetupReqCreator::new();
    let _ = creator.set_delay(a % 16);
    creator
}

fn tx_param_setup_req([a, ..]: [u8; 5]) -> TXParamSetupReqCreator {
    let mut creator = TXParamSetupReqCreator::new()
        .set_downlink_dwell_time()
        .set_uplink_dwell_time();
    let _ = creator.set_max_eirp(a % 16);
    creator
}

fn dl_channel_req([a, b, c, d, _]: [u8; 5]) -> DlChannelReqCreator {
    DlChannelReqCreator::new()
        .set_channel_index(a)
        .set_frequency(Frequency::from([b, c, d]))
}

fn device_time_ans([a, b, c, d, e]: [u8; 5]) -> DeviceTimeAnsCreator {
    let mut creator = DeviceTimeAnsCreator::new().set_seconds(u32::from_le_bytes([a, b, c, d]));
    let _ = creator.set_nano_seconds(3_906_250 * u32::from(e));
    creator
}

// The creator that a CID names, by number: it is a byte of what is read, any of 256. A byte that is no CID of the table names DevStatusReq's.
fn set(cid: u8, b: [u8; 5]) -> DownlinkMacCommandCreator {
    match cid {
        0x02 => DownlinkMacCommandCreator::of(link_check_ans(b)),
        0x03 => DownlinkMacCommandCreator::of(link_adr_req(b)),
        0x04 => DownlinkMacCommandCreator::of(duty_cycle_req(b)),
        0x05 => DownlinkMacCommandCreator::of(rx_param_setup_req(b)),
        0x07 => DownlinkMacCommandCreator::of(new_channel_req(b)),
        0x08 => DownlinkMacCommandCreator::of(rx_timing_setup_req(b)),
        0x09 => DownlinkMacCommandCreator::of(tx_param_setup_req(b)),
        0x0A => DownlinkMacCommandCreator::of(dl_channel_req(b)),
        0x0D => DownlinkMacCommandCreator::of(device_time_ans(b)),
        _ => DownlinkMacCommandCreator::of(DevStatusReqCreator::new()),
    }
}

// The record of the creator that is made and set from a wish: the CID, and five bytes for the fields.
pub(crate) fn wished([cid, a, b, c, d, e]: [u8; 6]) -> Record {
    Record::from(set(cid, [a, b, c, d, e]))
}
