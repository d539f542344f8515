// Which of the two places in a frame holds its MAC commands. A frame may have no port. FOpts, payload and port are three parameters and no struct:
// that is what callers of the two public functions have.
ghost use Rattle.std.specs.Prelude.{◌≡◌};
ghost use Rattle.table.specs.Told.{told_verdict};
ghost use Rattle.walk.specs.Chooser.{without_port, in_payload, in_both, verdict_of, chosen};
ghost use Rattle.walk.specs.Part.{shown};
ghost use Rattle.walk.specs.Told.{told_port};

use table::Refusal;

fn without_port(payload: &[u8], port: Option<u8>) -> bool
    ensures { result ≡ without_port (told_port port) payload.now }
{
    port.is_none() && !payload.is_empty()
}

fn in_payload(payload: &[u8], port: Option<u8>) -> bool
    ensures { result ≡ in_payload (told_port port) payload.now }
{
    port == Some(0) && !payload.is_empty()
}

fn in_both(fopts: &[u8], payload: &[u8], port: Option<u8>) -> bool
    ensures { result ≡ in_both (told_port port) fopts.now payload.now }
{
    in_payload(payload, port) && !fopts.is_empty()
}

// Whether the frame's MAC commands have one place.
pub fn choose_verdict(fopts: &[u8], payload: &[u8], port: Option<u8>) -> Result<(), Refusal>
    ensures { told_verdict result ≡ verdict_of (told_port port) fopts.now payload.now }
{
    if without_port(payload, port) {
        return Err(Refusal::PayloadWithoutPort);
    }
    if 15 < fopts.len() {
        return Err(Refusal::FOptsTooLong);
    }
    if in_both(fopts, payload, port) {
        return Err(Refusal::BothPlaces);
    }
    Ok(())
}

// The frame's MAC commands: all of FOpts or all of the payload, as the verdict allows. Where it refuses, the front of FOpts, with no bytes.
pub fn choose<'a>(fopts: &'a [u8], payload: &'a [u8], port: Option<u8>) -> &'a [u8]
    ensures { shown result ≡ chosen (told_port port) fopts.entry payload.entry }
{
    match choose_verdict(fopts, payload, port) {
        Ok(()) => {
            if in_payload(payload, port) {
                payload
            } else {
                fopts
            }
        }
        Err(_) => &fopts[..0],
    }
}
