// The readers and writers of messages, exported: each is the one of `fields`, and of a DHC message the one
// of `coordination`.
ghost use Rattle.std.specs.Prelude.{◌≡◌};
ghost use Rattle.octets.specs.Writing.{writing};
ghost use Rattle.bfd.specs.Reception.{cc_reading};
ghost use Rattle.bfd.specs.Octets.{cc_octets};
ghost use Rattle.cv.specs.MepId.{read_mep};
ghost use Rattle.cv.specs.Cv.{cv_octets};
ghost use Rattle.fault.specs.Message.{fault_reading};
ghost use Rattle.fault.specs.Octets.{fault_octets};
ghost use Rattle.coordination.specs.Message.{read_dhc};
ghost use Rattle.coordination.specs.Octets.{dhc_octets};
ghost use Rattle.coordination.specs.Numbers.{dhc_from, numbers_refusal, numbers_by};
ghost use Rattle.fields.specs.Fields.{packet_from, fault_from};
ghost use Rattle.fields.specs.Messages.{cc_read, cv_read_of, mep_read, fault_read, cc_write_refusal, cv_write_refusal, fault_write_refusal};

use coordination::{DhcNumbers, DhcRead};
use cv::MepId;
use fields::{CcRead, CvRead, FaultFields, FaultRead, MepIdRead, PacketFields};

// Reads a CC.
pub fn korvezul_read_cc(message: &[u8]) -> CcRead
    ensures { result ≡ cc_read (cc_reading message.now) }
{
    fields::read_cc(message)
}

// Reads a CV.
pub fn korvezul_read_cv(message: &[u8]) -> CvRead
    ensures { result ≡ cv_read_of message.now }
{
    fields::read_cv(message)
}

// Reads a MEP-ID alone, from its octets, type to end.
#[tactic(auto, unfolding(cv::specs::MepId::read_mep))]
pub fn korvezul_read_mep_id(octets: &[u8]) -> MepIdRead
    ensures { result ≡ mep_read (read_mep octets.now) }
{
    fields::read_mep_id(octets)
}

// Reads a fault message.
pub fn korvezul_read_fault(message: &[u8]) -> FaultRead
    ensures { result ≡ fault_read (fault_reading message.now) }
{
    fields::read_fault(message)
}

// Writes a plain CC, 28 octets: 10 for the fields, then 13 for the buffer, and then no byte changes.
#[tactic(auto, unfolding(octets::specs::Writing::writing))]
pub fn korvezul_write_cc_message(buffer: &mut [u8], packet: PacketFields) -> u32
    ensures { record { answer = result; buffer = buffer.new } ≡ writing (cc_write_refusal packet) (cc_octets (packet_from packet)) buffer.old }
{
    octets::answer_number(fields::write_cc(buffer, packet))
}

// Writes a plain CV, 44 octets; of a pseudowire 46 to 78.
#[tactic(auto, unfolding(octets::specs::Writing::writing))]
pub fn korvezul_write_cv_message(buffer: &mut [u8], packet: PacketFields, mep: MepId) -> u32
    ensures { record { answer = result; buffer = buffer.new } ≡ writing (cv_write_refusal packet mep) (cv_octets (packet_from packet) mep) buffer.old }
{
    octets::answer_number(fields::write_cv(buffer, packet, mep))
}

// Writes a plain fault message, 9, 15, 19 or 25 octets.
#[tactic(auto, unfolding(fault::specs::Octets::fault_octets, octets::specs::Writing::writing))]
pub fn korvezul_write_fault_message(buffer: &mut [u8], fault: FaultFields) -> u32
    ensures { record { answer = result; buffer = buffer.new } ≡ writing (fault_write_refusal fault) (fault_octets (fault_from fault)) buffer.old }
{
    octets::answer_number(fields::write_fault(buffer, fault))
}

// Reads a DHC message.
#[tactic(auto, unfolding(coordination::specs::Message::read_dhc))]
pub fn korvezul_read_dhc(message: &[u8]) -> DhcRead
    ensures { result ≡ numbers_by (read_dhc message.now) }
{
    coordination::read_dhc_numbers(message)
}

// Writes a plain DHC message, 32, 36 or 56 octets.
#[tactic(auto, unfolding(coordination::specs::Octets::dhc_octets, octets::specs::Writing::writing))]
pub fn korvezul_write_dhc_message(buffer: &mut [u8], dhc: DhcNumbers) -> u32
    ensures { record { answer = result; buffer = buffer.new } ≡ writing (numbers_refusal dhc) (dhc_octets (dhc_from dhc)) buffer.old }
{
    octets::answer_number(coordination::write_dhc_numbers(buffer, dhc))
}
