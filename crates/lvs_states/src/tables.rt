//! The state tables of Linux ipvs: a row for each flag, and in it the new states of the old states 0 to 10.
use lvs_types::TcpState;
use lvs_types::TcpState::{
    Close as CL, CloseWait as CW, Established as ES, FinWait as FW, LastAck as LA, Listen as LI,
    None0 as NO, SynAck as SA, SynRecv as SR, SynSent as SS, TimeWait as TW,
};

/// From the client, of a masqueraded connection.
#[rattlefmt::skip]
pub(crate) const INPUT: [[TcpState; 11]; 4] = [
    // NO  ES  SS  SR  FW  TW  CL  CW  LA  LI  SA
    [  SR, ES, ES, SR, SR, SR, SR, SR, SR, SR, SR ], // syn
    [  CL, CW, SS, TW, TW, TW, CL, CW, LA, LI, TW ], // fin
    [  ES, ES, SS, ES, FW, TW, CL, CW, CL, LI, ES ], // ack
    [  CL, CL, CL, SR, CL, CL, CL, CL, LA, LI, SR ], // rst
];

/// From the real server, of a masqueraded connection.
#[rattlefmt::skip]
pub(crate) const OUTPUT: [[TcpState; 11]; 4] = [
    // NO  ES  SS  SR  FW  TW  CL  CW  LA  LI  SA
    [  SS, ES, SS, SR, SS, SS, SS, SS, SS, LI, SR ], // syn
    [  TW, FW, SS, TW, FW, TW, CL, TW, LA, LI, TW ], // fin
    [  ES, ES, SS, ES, FW, TW, CL, CW, LA, ES, ES ], // ack
    [  CL, CL, SS, CL, CL, TW, CL, CL, CL, CL, CL ], // rst
];

/// From the client, where the director sees no answer.
#[rattlefmt::skip]
pub(crate) const INPUT_ONLY: [[TcpState; 11]; 4] = [
    // NO  ES  SS  SR  FW  TW  CL  CW  LA  LI  SA
    [  SR, ES, ES, SR, SR, SR, SR, SR, SR, SR, SR ], // syn
    [  CL, FW, SS, TW, FW, TW, CL, CW, LA, LI, TW ], // fin
    [  ES, ES, SS, ES, FW, TW, CL, CW, CL, LI, ES ], // ack
    [  CL, CL, CL, SR, CL, CL, CL, CL, LA, LI, CL ], // rst
];
