//! A law of the definitions, on a function that does nothing.

ghost use Rattle.std.specs.Prelude.{◌≡◌, ℕ, List, codes};
ghost use Rattle.http.specs.declared.request.Request.{Request};
ghost use Rattle.casa_http.specs.declared.hosts.Hosts.{Hosts};
ghost use Rattle.casa_http.specs.declared.route.Route.TheVariants.{Lines, Try};
ghost use Rattle.casa_http.specs.Routes.{SendsLines, route_of};

/// Lines are only answered, and only tried, for the page: by POST to their path at one of the hosts, with the origin of that
/// host.
pub fn only_the_page_sends_lines()
    ensures answered { (hosts : Hosts) (r : Request (List ℕ)) → route_of hosts r ≡ Lines
        → SendsLines hosts (codes "/lines") r }
    ensures tried { (hosts : Hosts) (r : Request (List ℕ)) → route_of hosts r ≡ Try
        → SendsLines hosts (codes "/try") r }
{}
