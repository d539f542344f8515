// The entries from 40 on: the creators, by themselves, in the enum of their direction, and as records.
use crate::answer::Answer;
use crate::reading::{argument, byte, calls, frequency, is_default, low, mask};
use build::Record;
use creators::{
    Creator, DevStatusAnsCreator, DevStatusReqCreator, DeviceTimeAnsCreator, DeviceTimeReqCreator,
    DlChannelAnsCreator, DlChannelReqCreator, DutyCycleAnsCreator, DutyCycleReqCreator,
    LinkADRAnsCreator, LinkADRReqCreator, LinkCheckAnsCreator, LinkCheckReqCreator,
    MacCommandCreator, NewChannelAnsCreator, NewChannelReqCreator, RXParamSetupAnsCreator,
    RXParamSetupReqCreator, RXTimingSetupAnsCreator, RXTimingSetupReqCreator,
    TXParamSetupAnsCreator, TXParamSetupReqCreator,
};
use fields::{DLSettings, DataRateRange, Redundancy};
use table::Refusal;

// Where the calls of an input stand in it: behind the byte that says how the creator starts.
const CALLS: [usize; 4] = [1, 6, 11, 16];

// The creator as the input has it start.
fn started<const N: usize, C: Creator<N>>(input: &[u8]) -> C {
    if is_default(input) {
        C::default()
    } else {
        C::new()
    }
}

// Behind the verdicts of its calls: the creator; the creator in its enum; the creator's record and the enum's, which are one function here.
fn told<const N: usize, C: Creator<N>>(verdicts: Answer, creator: C) -> Answer {
    let image = creator.build();
    let any = MacCommandCreator::of(creator);
    let built = any.build();
    let record = Record::from(any);
    verdicts
        .image(creator.cid(), creator.len(), &image)
        .byte(any.cid())
        .length(any.len())
        .front(&built.bytes, built.len)
        .record(record)
        .record(record)
}

// A creator that has no setter.
fn plain<const N: usize, C: Creator<N>>(input: &[u8]) -> Answer {
    told(Answer::new(), started::<N, C>(input))
}

// A creator after the input's calls, of which none can be refused. A call is a setter's number and an argument.
fn set<const N: usize, C: Creator<N>, F: Fn(C, u8, u32) -> C>(input: &[u8], call: F) -> Answer
    requires { F.IsAlwaysCallable call }
{
    let mut creator: C = started(input);
    for at in CALLS {
        creator = call(creator, byte(input, at), argument(input, at));
    }
    told(Answer::new().four(0).cut(calls(input)), creator)
}

// The same where a call may be refused.
fn set_checked<const N: usize, C: Creator<N>, F: Fn(&mut C, u8, u32) -> Result<(), Refusal>>(
    input: &[u8],
    call: F,
) -> Answer
    requires { F.IsAlwaysCallable call }
{
    let mut creator: C = started(input);
    let mut verdicts = Answer::new();
    for at in CALLS {
        verdicts = verdicts.verdict(call(&mut creator, byte(input, at), argument(input, at)));
    }
    told(verdicts.cut(calls(input)), creator)
}

fn link_check_ans(input: &[u8]) -> Answer {
    set(input, |c: LinkCheckAnsCreator, setter, a| match setter {
        1 => c.set_margin(low(a)),
        2 => c.set_gateway_count(low(a)),
        _ => c,
    })
}

fn link_adr_req(input: &[u8]) -> Answer {
    set_checked(input, |c: &mut LinkADRReqCreator, setter, a| {
        match setter {
            1 => return c.set_data_rate(low(a)),
            2 => return c.set_tx_power(low(a)),
            3 => *c = c.set_channel_mask(mask(a)),
            4 => *c = c.set_redundancy(Redundancy::new(low(a))),
            _ => (),
        }
        Ok(())
    })
}

fn link_adr_ans(input: &[u8]) -> Answer {
    set(input, |c: LinkADRAnsCreator, setter, a| match setter {
        1 => c.set_channel_mask_ack(a != 0),
        2 => c.set_data_rate_ack(a != 0),
        3 => c.set_tx_power_ack(a != 0),
        _ => c,
    })
}

fn duty_cycle_req(input: &[u8]) -> Answer {
    set(input, |c: DutyCycleReqCreator, setter, a| match setter {
        1 => c.set_max_duty_cycle(low(a)),
        _ => c,
    })
}

fn rx_param_setup_req(input: &[u8]) -> Answer {
    set(input, |c: RXParamSetupReqCreator, setter, a| match setter {
        1 => c.set_dl_settings(DLSettings::new(low(a))),
        2 => c.set_frequency(frequency(a)),
        _ => c,
    })
}

fn rx_param_setup_ans(input: &[u8]) -> Answer {
    set(input, |c: RXParamSetupAnsCreator, setter, a| match setter {
        1 => c.set_channel_ack(a != 0),
        2 => c.set_rx2_data_rate_ack(a != 0),
        3 => c.set_rx1_data_rate_offset_ack(a != 0),
        _ => c,
    })
}

fn dev_status_ans(input: &[u8]) -> Answer {
    set_checked(input, |c: &mut DevStatusAnsCreator, setter, a| {
        match setter {
            1 => *c = c.set_battery(low(a)),
            2 => return c.set_margin(low(a).cast_signed()),
            _ => (),
        }
        Ok(())
    })
}

fn new_channel_req(input: &[u8]) -> Answer {
    set(input, |c: NewChannelReqCreator, setter, a| match setter {
        1 => c.set_channel_index(low(a)),
        2 => c.set_frequency(frequency(a)),
        3 => c.set_data_rate_range(DataRateRange::new_from_raw(low(a))),
        _ => c,
    })
}

fn new_channel_ans(input: &[u8]) -> Answer {
    set(input, |c: NewChannelAnsCreator, setter, a| match setter {
        1 => c.set_channel_frequency_ack(a != 0),
        2 => c.set_data_rate_range_ack(a != 0),
        _ => c,
    })
}

fn rx_timing_setup_req(input: &[u8]) -> Answer {
    set_checked(
        input,
        |c: &mut RXTimingSetupReqCreator, setter, a| match setter {
            1 => c.set_delay(low(a)),
            _ => Ok(()),
        },
    )
}

fn tx_param_setup_req(input: &[u8]) -> Answer {
    set_checked(input, |c: &mut TXParamSetupReqCreator, setter, a| {
        match setter {
            1 => *c = c.set_downlink_dwell_time(),
            2 => *c = c.set_uplink_dwell_time(),
            3 => return c.set_max_eirp(low(a)),
            _ => (),
        }
        Ok(())
    })
}

fn dl_channel_req(input: &[u8]) -> Answer {
    set(input, |c: DlChannelReqCreator, setter, a| match setter {
        1 => c.set_channel_index(low(a)),
        2 => c.set_frequency(frequency(a)),
        _ => c,
    })
}

fn dl_channel_ans(input: &[u8]) -> Answer {
    set(input, |c: DlChannelAnsCreator, setter, a| match setter {
        1 => c.set_channel_frequency_ack(a != 0),
        2 => c.set_uplink_frequency_exists_ack(a != 0),
        _ => c,
    })
}

fn device_time_ans(input: &[u8]) -> Answer {
    set_checked(input, |c: &mut DeviceTimeAnsCreator, setter, a| {
        match setter {
            1 => *c = c.set_seconds(a),
            2 => return c.set_nano_seconds(a),
            _ => (),
        }
        Ok(())
    })
}

// Commands are numbered row by row of the table, the one that is sent down first.
pub(crate) fn answer(command: u8, input: &[u8]) -> Answer {
    match command {
        0 => link_check_ans(input),
        1 => plain::<1, LinkCheckReqCreator>(input),
        2 => link_adr_req(input),
        3 => link_adr_ans(input),
        4 => duty_cycle_req(input),
        5 => plain::<1, DutyCycleAnsCreator>(input),
        6 => rx_param_setup_req(input),
        7 => rx_param_setup_ans(input),
        8 => plain::<1, DevStatusReqCreator>(input),
        9 => dev_status_ans(input),
        10 => new_channel_req(input),
        11 => new_channel_ans(input),
        12 => rx_timing_setup_req(input),
        13 => plain::<1, RXTimingSetupAnsCreator>(input),
        14 => tx_param_setup_req(input),
        15 => plain::<1, TXParamSetupAnsCreator>(input),
        16 => dl_channel_req(input),
        17 => dl_channel_ans(input),
        18 => device_time_ans(input),
        19 => plain::<1, DeviceTimeReqCreator>(input),
        _ => Answer::new(),
    }
}
