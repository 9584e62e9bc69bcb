// What a request looks for in the row.
ghost use Rattle.std.specs.Prelude.{◌≡◌};
ghost use Rattle.step.specs.Requests.{aimed_at, target_of};

use crate::Request;
use scan::Target;

pub fn aimed_at(label: u32) -> Target
    ensures { result ≡ aimed_at label }
{
    Target {
        label,
        discriminator: 0,
    }
}

pub fn target(q: Request) -> Target
    ensures { result ≡ target_of q }
{
    match q {
        Request::Tick(_) => aimed_at(0),
        Request::Close(l, _)
        | Request::Lock(l, _)
        | Request::Unlock(l, _)
        | Request::ReportOn(l)
        | Request::WriteCc(l, _)
        | Request::WriteCv(l, _) => aimed_at(l),
    }
}
