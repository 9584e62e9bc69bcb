// The writers of plain messages from their fields, for a host: 10 for the fields, then 13 for the
// buffer, and then no byte changes.
ghost use Rattle.std.specs.Prelude.{◌≡◌};
ghost use Rattle.octets.specs.Refusals.{refusal_in};
ghost use Rattle.octets.specs.Writing.{writing};
ghost use Rattle.bfd.specs.Octets.{cc_octets};
ghost use Rattle.cv.specs.Cv.{cv_octets};
ghost use Rattle.fault.specs.Octets.{fault_octets};
ghost use Rattle.fields.specs.Fields.{packet_from, fault_from};
ghost use Rattle.fields.specs.Messages.{cc_write_refusal, cv_write_refusal, fault_write_refusal};

use crate::fields::{
    FaultFields, PacketFields, fault_from, fault_marks, packet_from, packet_marks,
};
use cv::MepId;
use octets::Refusal;

// Writes a plain CC, 28 octets.
#[tactic(auto, unfolding(octets::specs::Writing::writing))]
pub fn write_cc(buffer: &mut [u8], packet: PacketFields) -> Result<(), Refusal>
    ensures { record { answer = refusal_in result; buffer = buffer.new } ≡ writing (cc_write_refusal packet) (cc_octets (packet_from packet)) buffer.old }
{
    packet_marks(packet)?;
    bfd::write_cc(buffer, packet_from(packet))
}

// Writes a plain CV, 44 octets; of a pseudowire 46 to 78.
#[tactic(auto, unfolding(octets::specs::Writing::writing))]
pub fn write_cv(buffer: &mut [u8], packet: PacketFields, mep: MepId) -> Result<(), Refusal>
    ensures { record { answer = refusal_in result; buffer = buffer.new } ≡ writing (cv_write_refusal packet mep) (cv_octets (packet_from packet) mep) buffer.old }
{
    packet_marks(packet)?;
    cv::write_cv(buffer, packet_from(packet), mep)
}

// Writes a plain fault message, 9, 15, 19 or 25 octets.
#[tactic(auto, unfolding(octets::specs::Writing::writing))]
pub fn write_fault(buffer: &mut [u8], fault: FaultFields) -> Result<(), Refusal>
    ensures { record { answer = refusal_in result; buffer = buffer.new } ≡ writing (fault_write_refusal fault) (fault_octets (fault_from fault)) buffer.old }
{
    fault_marks(fault)?;
    fault::write_fault(buffer, fault_from(fault))
}
