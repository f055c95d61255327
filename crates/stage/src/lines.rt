// Looking along the messages and the helpers.
ghost use Rattle.std.specs.Prelude.{◌≡◌, nat_lt};
ghost use Rattle.std.specs.List.{position};
ghost use Rattle.helper_coins.specs.Helpers.{seek_waiting};
ghost use Rattle.runs.specs.System.{on_line};
ghost use Rattle.stage.specs.Scenes.{room};

use coins::ids::NodeId;
use coins::mail::Mail;
use coins::parcel::Parcel;
use helper_coins::helper::Helper;

// As many messages of a sender to a receiver may be under way.
pub const WINDOW: usize = 1024;

// Whether a message goes from one to another. The two are no struct: each call would make one anew of what it has.
fn on_line(mail: Mail, sender: NodeId, receiver: NodeId) -> bool
    ensures { result ≡ on_line sender receiver mail }
{
    mail.sender == sender && mail.receiver == receiver
}

// The first message on a line.
pub(crate) fn head(parcels: &[Parcel], sender: NodeId, receiver: NodeId) -> Option<usize>
    ensures { result ≡ position (λ parcel. on_line sender receiver parcel.mail) parcels.now }
{
    parcels
        .iter()
        .position(|parcel| on_line(parcel.mail, sender, receiver))
}

// The places that there are on a line.
#[tactic(auto, unfolding(crate::specs::Scenes::room))]
pub(crate) fn room(parcels: &[Parcel], sender: NodeId, receiver: NodeId) -> usize
    ensures { result ≡ room parcels.now sender receiver }
{
    let under_way = parcels
        .iter()
        .filter(|parcel| on_line(parcel.mail, sender, receiver))
        .count();
    WINDOW.saturating_sub(under_way)
}

// The first message for one of so many helpers.
pub(crate) fn first_to_helper(parcels: &[Parcel], helpers: usize) -> Option<usize>
    ensures { result ≡ position (λ parcel. nat_lt parcel.mail.receiver.number helpers) parcels.now }
{
    parcels
        .iter()
        .position(|parcel| (parcel.mail.receiver.number as usize) < helpers)
}

// The first helper with coins that wait for a place.
pub(crate) fn first_holder(helpers: &[Helper]) -> Option<usize>
    ensures { result ≡ position (λ helper. nat_lt (seek_waiting helper.holdings) 64) helpers.now }
{
    helpers.iter().position(|helper| helper.is_waiting())
}
