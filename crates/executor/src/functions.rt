// The numbers of the direct functions: the high four bits of their codes.
use instruction::codes;

pub const J: u32 = (codes::J / 16) as u32;

pub const LDLP: u32 = (codes::LDLP / 16) as u32;

pub const LDC: u32 = (codes::LDC / 16) as u32;

pub const LDL: u32 = (codes::LDL / 16) as u32;

pub const CJ: u32 = (codes::CJ / 16) as u32;

pub const AJW: u32 = (codes::AJW / 16) as u32;

pub const EQC: u32 = (codes::EQC / 16) as u32;

pub const STL: u32 = (codes::STL / 16) as u32;

pub const OPR: u32 = (codes::OPR / 16) as u32;
