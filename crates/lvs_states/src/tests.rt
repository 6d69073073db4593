//! What a Linux 6.1 director did, the timeouts, and the buckets and workers of two clients.
use crate::{is_active, next_state, timeout_of};
use lvs_model::{bucket_of, mix, worker_of};
use lvs_types::Direction::{Input, InputOnly, Output};
use lvs_types::TcpState::{
    Close as CL, CloseWait as CW, Established as ES, FinWait as FW, LastAck as LA, Listen as LI,
    None0 as NO, SynAck as SA, SynRecv as SR, SynSent as SS, TimeWait as TW,
};
use lvs_types::{Addr, Direction, Head, Settings, TcpState};

const STATES: [TcpState; 11] = [NO, ES, SS, SR, FW, TW, CL, CW, LA, LI, SA];

/// One packet each into a director of Linux 6.1.192: the direction, the flags of the packet as in
/// its header (FIN 01, SYN 02, RST 04, ACK 10), and the new states by old state.
#[rattlefmt::skip]
const OBSERVED: [(Direction, u8, [TcpState; 11]); 30] = [
    //                 NO  ES  SS  SR  FW  TW  CL  CW  LA  LI  SA
    (Input,     0x02, [SR, ES, ES, SR, SR, SR, SR, SR, SR, SR, SR]), // syn
    (Input,     0x01, [CL, CW, SS, TW, TW, TW, CL, CW, LA, LI, TW]), // fin
    (Input,     0x10, [ES, ES, SS, ES, FW, TW, CL, CW, CL, LI, ES]), // ack
    (Input,     0x04, [CL, CL, CL, SR, CL, CL, CL, CL, LA, LI, SR]), // rst
    (Input,     0x00, [CL, CL, CL, CL, CL, CL, CL, CL, CL, CL, CL]), // none
    (Input,     0x12, [SR, ES, ES, SR, SR, SR, SR, SR, SR, SR, SR]), // syn ack
    (Input,     0x11, [CL, CW, SS, TW, TW, TW, CL, CW, LA, LI, TW]), // fin ack
    (Input,     0x14, [CL, CL, CL, SR, CL, CL, CL, CL, LA, LI, SR]), // rst ack
    (Input,     0x03, [SR, ES, ES, SR, SR, SR, SR, SR, SR, SR, SR]), // syn fin
    (Input,     0x17, [CL, CL, CL, SR, CL, CL, CL, CL, LA, LI, SR]), // all
    (Output,    0x02, [SS, ES, SS, SR, SS, SS, SS, SS, SS, LI, SR]), // syn
    (Output,    0x01, [TW, FW, SS, TW, FW, TW, CL, TW, LA, LI, TW]), // fin
    (Output,    0x10, [ES, ES, SS, ES, FW, TW, CL, CW, LA, ES, ES]), // ack
    (Output,    0x04, [CL, CL, SS, CL, CL, TW, CL, CL, CL, CL, CL]), // rst
    (Output,    0x00, [CL, CL, CL, CL, CL, CL, CL, CL, CL, CL, CL]), // none
    (Output,    0x12, [SS, ES, SS, SR, SS, SS, SS, SS, SS, LI, SR]), // syn ack
    (Output,    0x11, [TW, FW, SS, TW, FW, TW, CL, TW, LA, LI, TW]), // fin ack
    (Output,    0x14, [CL, CL, SS, CL, CL, TW, CL, CL, CL, CL, CL]), // rst ack
    (Output,    0x03, [SS, ES, SS, SR, SS, SS, SS, SS, SS, LI, SR]), // syn fin
    (Output,    0x17, [CL, CL, SS, CL, CL, TW, CL, CL, CL, CL, CL]), // all
    (InputOnly, 0x02, [SR, ES, ES, SR, SR, SR, SR, SR, SR, SR, SR]), // syn
    (InputOnly, 0x01, [CL, FW, SS, TW, FW, TW, CL, CW, LA, LI, TW]), // fin
    (InputOnly, 0x10, [ES, ES, SS, ES, FW, TW, CL, CW, CL, LI, ES]), // ack
    (InputOnly, 0x04, [CL, CL, CL, SR, CL, CL, CL, CL, LA, LI, CL]), // rst
    (InputOnly, 0x00, [CL, CL, CL, CL, CL, CL, CL, CL, CL, CL, CL]), // none
    (InputOnly, 0x12, [SR, ES, ES, SR, SR, SR, SR, SR, SR, SR, SR]), // syn ack
    (InputOnly, 0x11, [CL, FW, SS, TW, FW, TW, CL, CW, LA, LI, TW]), // fin ack
    (InputOnly, 0x14, [CL, CL, CL, SR, CL, CL, CL, CL, LA, LI, CL]), // rst ack
    (InputOnly, 0x03, [SR, ES, ES, SR, SR, SR, SR, SR, SR, SR, SR]), // syn fin
    (InputOnly, 0x17, [CL, CL, CL, SR, CL, CL, CL, CL, LA, LI, CL]), // all
];

fn packet(flags: u8) -> Head {
    Head {
        header_len: 20,
        total: 40,
        code: 6,
        tos: 0,
        id: 1,
        dont_fragment: true,
        fragment: false,
        ttl: 64,
        src: Addr {
            number: 0xAC10_0009,
        },
        dst: Addr {
            number: 0x0A00_0001,
        },
        sport: 40000,
        dport: 80,
        syn: flags & 0x02 != 0,
        ack: flags & 0x10 != 0,
        fin: flags & 0x01 != 0,
        rst: flags & 0x04 != 0,
    }
}

#[test]
fn goes_through_the_states_of_linux(rt: HostRuntime) {
    for (direction, flags, wanted) in OBSERVED {
        let head = packet(flags);
        for (old, new) in STATES.iter().zip(&wanted) {
            let found = next_state(*old, direction, &head);
            assert_eq!(rt; found, *new, "from {old:?}, {direction:?}, flags {flags}");
        }
    }
}

#[test]
fn takes_timeouts_from_the_settings(rt: HostRuntime) {
    let mut settings = Settings::initial();
    for (state, seconds) in [
        (None, 300),
        (Some(ES), 900),
        (Some(FW), 120),
        (Some(SR), 60),
        (Some(CL), 10),
    ] {
        assert_eq!(rt; timeout_of(&settings, state), seconds, "at {state:?}");
    }
    settings.fin_wait = 30;
    assert_eq!(rt; timeout_of(&settings, Some(FW)), 30);
    assert_eq!(rt; timeout_of(&settings, None), 300);
}

#[test]
fn counts_established_ones_as_active(rt: HostRuntime) {
    for (state, active) in [
        (None, false),
        (Some(ES), true),
        (Some(SR), false),
        (Some(TW), false),
    ] {
        assert_eq!(rt; is_active(state), active, "at {state:?}");
    }
}

#[test]
fn mixes_the_clients_bits(rt: HostRuntime) {
    let client = Addr {
        number: 0xAC10_0009,
    };
    for (port, mixed, bucket, worker) in [(40000, 1916872479, 2, 1), (40001, 2907146790, 13, 3)] {
        assert_eq!(rt; mix(6, client, port), mixed, "at {port}");
        assert_eq!(rt; bucket_of(6, client, port, 16), bucket, "at {port}");
        assert_eq!(rt; worker_of(6, client, port, 4), worker, "at {port}");
    }
}
