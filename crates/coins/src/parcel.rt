// A message with the bytes of its work beside it.
ghost use Rattle.std.specs.Prelude.{◌≡◌, ◌≤◌, length};
ghost use Rattle.coins.specs.Parcels.{parcel_of};

use crate::mail::{Kind, Mail};
use crate::work::Work;

#[derive(Clone, Copy)]
pub struct Parcel {
    pub mail: Mail,
    pub work: Work,
}

impl Parcel {
    // A message; the bytes go with it if it is work.
    pub fn new(mail: Mail, work: Work) -> Parcel
        ensures made { result ≡ parcel_of mail work }
        ensures short { length result.work ≤ 256 }
    {
        let work = match mail.kind {
            Kind::Work(_) => work,
            Kind::More(_) | Kind::Back(_) | Kind::NoMore | Kind::Ask => Work::empty(),
        };
        // its clause says that there are at most 256
        let _bytes = work.as_slice();
        Parcel { mail, work }
    }
}
