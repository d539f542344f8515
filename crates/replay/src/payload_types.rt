// The entries from 10 on: the payload types.
use crate::answer::Answer;
use payloads::{
    CommandType, DevStatusAnsPayload, DevStatusReqPayload, DeviceTimeAnsPayload,
    DeviceTimeReqPayload, DlChannelAnsPayload, DlChannelReqPayload, DutyCycleAnsPayload,
    DutyCycleReqPayload, LinkADRAnsPayload, LinkADRReqPayload, LinkCheckAnsPayload,
    LinkCheckReqPayload, NewChannelAnsPayload, NewChannelReqPayload, RXParamSetupAnsPayload,
    RXParamSetupReqPayload, RXTimingSetupAnsPayload, RXTimingSetupReqPayload,
    TXParamSetupAnsPayload, TXParamSetupReqPayload,
};
use table::Refusal;

// What a command type answers of itself.
fn of_type<P: CommandType>() -> Answer {
    Answer::new().heading(P::cid(), P::uplink(), P::len())
}

// What a sized type answers, and then what `new` does: a refusal, or a payload, of which its fields are read.
fn sized<P: CommandType + Drop, F: FnOnce(Answer, P) -> Answer>(
    payload: Result<P, Refusal>,
    read: F,
) -> Answer
    requires { F.IsAlwaysCallable read }
{
    of_type::<P>().answered(payload, read)
}

// What a type without fields answers, whose `new` refuses nothing, and then the bytes of the payload that it makes.
fn fieldless<P: CommandType>(bytes: [u8; 0]) -> Answer {
    of_type::<P>().byte(0).all(&bytes)
}

fn max_duty_cycle_bits(p: DutyCycleReqPayload) -> u32 {
    f32::to_bits(p.max_duty_cycle())
}

fn link_check_ans(input: &[u8]) -> Answer {
    sized(LinkCheckAnsPayload::new(input), |told, p| {
        told.all(&p.bytes())
            .all(&LinkCheckAnsPayload::from(p.bytes()).bytes())
            .byte(p.margin())
            .byte(p.gateway_count())
    })
}

fn link_adr_req(input: &[u8]) -> Answer {
    sized(LinkADRReqPayload::new(input), |told, p| {
        told.all(&p.bytes())
            .all(&LinkADRReqPayload::from(p.bytes()).bytes())
            .byte(p.data_rate())
            .byte(p.tx_power())
            .all(&p.channel_mask().as_ref())
            .byte(p.redundancy().raw_value())
    })
}

fn link_adr_ans(input: &[u8]) -> Answer {
    sized(LinkADRAnsPayload::new(input), |told, p| {
        told.all(&p.bytes())
            .flag(p.channel_mask_ack())
            .flag(p.data_rate_ack())
            .flag(p.powert_ack())
            .flag(p.ack())
    })
}

fn duty_cycle_req(input: &[u8]) -> Answer {
    sized(DutyCycleReqPayload::new(input), |told, p| {
        told.all(&p.bytes())
            .byte(p.max_duty_cycle_raw())
            .four(max_duty_cycle_bits(p))
    })
}

fn rx_param_setup_req(input: &[u8]) -> Answer {
    sized(RXParamSetupReqPayload::new(input), |told, p| {
        told.all(&p.bytes())
            .byte(p.dl_settings().raw_value())
            .frequency(p.frequency())
    })
}

fn rx_param_setup_ans(input: &[u8]) -> Answer {
    sized(RXParamSetupAnsPayload::new(input), |told, p| {
        told.all(&p.bytes())
            .flag(p.channel_ack())
            .flag(p.rx2_data_rate_ack())
            .flag(p.rx1_dr_offset_ack())
            .flag(p.ack())
    })
}

fn dev_status_ans(input: &[u8]) -> Answer {
    sized(DevStatusAnsPayload::new(input), |told, p| {
        told.all(&p.bytes()).byte(p.battery()).signed(p.margin())
    })
}

fn new_channel_req(input: &[u8]) -> Answer {
    sized(NewChannelReqPayload::new(input), |told, p| {
        told.all(&p.bytes())
            .byte(p.channel_index())
            .frequency(p.frequency())
            .byte(p.data_rate_range().raw_value())
    })
}

fn new_channel_ans(input: &[u8]) -> Answer {
    sized(NewChannelAnsPayload::new(input), |told, p| {
        told.all(&p.bytes())
            .flag(p.channel_freq_ack())
            .flag(p.data_rate_range_ack())
            .flag(p.ack())
    })
}

fn rx_timing_setup_req(input: &[u8]) -> Answer {
    sized(RXTimingSetupReqPayload::new(input), |told, p| {
        told.all(&p.bytes()).byte(p.delay())
    })
}

fn tx_param_setup_req(input: &[u8]) -> Answer {
    sized(TXParamSetupReqPayload::new(input), |told, p| {
        told.all(&p.bytes())
            .flag(p.downlink_dwell_time())
            .flag(p.uplink_dwell_time())
            .byte(p.max_eirp())
    })
}

fn dl_channel_req(input: &[u8]) -> Answer {
    sized(DlChannelReqPayload::new(input), |told, p| {
        told.all(&p.bytes())
            .byte(p.channel_index())
            .frequency(p.frequency())
    })
}

fn dl_channel_ans(input: &[u8]) -> Answer {
    sized(DlChannelAnsPayload::new(input), |told, p| {
        told.all(&p.bytes())
            .flag(p.channel_freq_ack())
            .flag(p.uplink_freq_ack())
            .flag(p.ack())
    })
}

fn device_time_ans(input: &[u8]) -> Answer {
    sized(DeviceTimeAnsPayload::new(input), |told, p| {
        told.all(&p.bytes())
            .four(p.seconds())
            .four(p.nano_seconds())
    })
}

// Commands are numbered row by row of the table, the one that is sent down first.
pub(crate) fn answer(command: u8, input: &[u8]) -> Answer {
    match command {
        0 => link_check_ans(input),
        1 => fieldless::<LinkCheckReqPayload>(LinkCheckReqPayload::new(input).bytes()),
        2 => link_adr_req(input),
        3 => link_adr_ans(input),
        4 => duty_cycle_req(input),
        5 => fieldless::<DutyCycleAnsPayload>(DutyCycleAnsPayload::new(input).bytes()),
        6 => rx_param_setup_req(input),
        7 => rx_param_setup_ans(input),
        8 => fieldless::<DevStatusReqPayload>(DevStatusReqPayload::new(input).bytes()),
        9 => dev_status_ans(input),
        10 => new_channel_req(input),
        11 => new_channel_ans(input),
        12 => rx_timing_setup_req(input),
        13 => fieldless::<RXTimingSetupAnsPayload>(RXTimingSetupAnsPayload::new(input).bytes()),
        14 => tx_param_setup_req(input),
        15 => fieldless::<TXParamSetupAnsPayload>(TXParamSetupAnsPayload::new(input).bytes()),
        16 => dl_channel_req(input),
        17 => dl_channel_ans(input),
        18 => device_time_ans(input),
        19 => fieldless::<DeviceTimeReqPayload>(DeviceTimeReqPayload::new(input).bytes()),
        _ => Answer::new(),
    }
}
